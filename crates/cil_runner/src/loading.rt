ghost use Rattle.std.specs.Prelude.{◌≡◌, IfOk, All, map};
ghost use Rattle.std.specs.String.{string_bytes};
ghost use Rattle.cil_tree.specs.WellFormedTypes.{TypesAreSmall};
ghost use Rattle.layout_lp64.specs.Tables.{InStep};
ghost use Rattle.cil_start.specs.Ready.{AreInStep};

use cil_base::{Bytes, Memory};
use cil_tree::CilUnit;
use layout_lp64::{LayoutStop, Layouts};
use std::alloc::Global;
use type_graph::TypeGraph;

/// The layouts of types none of which is too big.
#[tactic(auto, using(crate::proofs::Loads::none_too_big))]
fn layouts_of(alloc: Global, g: &TypeGraph) -> Result<Layouts, Memory>
    requires { TypesAreSmall g.now }
    ensures { IfOk result (λ l. InStep l g.now) }
{
    match Layouts::of_graph(alloc, g) {
        Ok(layouts) => Ok(layouts),
        Err(LayoutStop::Memory) => Err(Memory),
        Err(LayoutStop::TooBig(_)) => unreachable!(),
    }
}

/// The layouts of each program's types.
pub(crate) fn all_layouts(alloc: Global, units: &[CilUnit]) -> Result<Vec<Layouts>, Memory>
    requires { All (λ u. TypesAreSmall u.graph) units.now }
    ensures { IfOk result (λ v. AreInStep v.items units.now) }
{
    let mut layouts = Vec::new(alloc);
    for i in 0..units.len() {
        layouts.push(layouts_of(alloc, &units[i].graph)?)?;
    }
    Ok(layouts)
}

/// The bytes of the argument words.
pub(crate) fn words_of(alloc: Global, args: &[String]) -> Result<Vec<Bytes>, Memory>
    ensures { IfOk result (λ v. v.items ≡ map string_bytes args.now) }
{
    let mut words = Vec::new(alloc);
    for i in 0..args.len() {
        words.push(Bytes::new(args[i].as_bytes().to_vec(alloc)?))?;
    }
    Ok(words)
}
