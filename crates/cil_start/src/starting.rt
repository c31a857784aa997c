ghost use Rattle.std.specs.Prelude.{ℕ, IfOk, List, map};
ghost use Rattle.cil_tree.specs.View.{program_of};
ghost use Rattle.cil_semantics.specs.Modes.{HaveModel, HaveOneModel};
ghost use Rattle.cil_link.specs.Units.{programs_in};
ghost use Rattle.cil_start.specs.Ready.{AreReady};
ghost use Rattle.cil_start.specs.Starts.{Starts};

use crate::loaded::LoadedUnits;
use crate::objects::make_entities;
use crate::words::make_arguments;
use byte_mem::Store;
use cil_base::{Abi, Bytes, Memory};
use cil_tree::CilUnit;
use std::alloc::Global;

/// The data model of the programs of a run; they have one (own).
fn abi_of(units: &[CilUnit]) -> Abi
    ensures { (names : List (List ℕ)) → HaveOneModel (map (program_of names) units.now) → HaveModel result (map (program_of names) units.now) }
{
    match units.first() {
        None => Abi::Lp64,
        Some(u) => u.graph.abi(),
    }
}

/// The store in which the run of linked programs starts with those words, the first of which names it: their objects with
/// their images, their functions and the host's, and the arguments (C11 5.1.2p1, 5.1.2.2.1p2), in the data model of the
/// programs, which have one (own).
///
/// Memory also comes where a number would not fit.
pub fn start(alloc: Global, l: &LoadedUnits, words: &[Bytes]) -> Result<Store, Memory>
    requires { AreReady l.now }
    ensures { IfOk result (λ s. Starts s (programs_in l.now.linked) words.now) }
{
    let abi = abi_of(l.linked.units);
    let mut mem = Store::new_for(alloc, abi);
    make_entities(l, &mut mem)?;
    make_arguments(alloc, &mut mem, abi, words)?;
    Ok(mem)
}
