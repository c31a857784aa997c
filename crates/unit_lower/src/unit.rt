ghost use Rattle.std.specs.Prelude.{IfOk};
ghost use Rattle.unit_lower.specs.Externals.{HasExternals};

use crate::globals::{globals, plain_ordinary, printed_types};
use crate::order::{numbered, ordered};
use crate::sites::sites;
use crate::types::plain_types;
use cil_base::{Bases, Memory};
use cil_tree::CilUnit;
use link_names::Fronted;
use lower_parts::{FunctionOut, UnitOut};
use std::alloc::Global;
use typed_tree::TypedUnit;

/// A typed unit as a CIL program, whose names are those that are asked for, with its external names, each once, in the order of their first
/// places.
#[tactic(auto, using(crate::proofs::ExternalLaws::has_externals))]
pub fn lower_unit(alloc: Global, unit: &TypedUnit, bases: Bases) -> Result<Fronted, Memory>
    ensures { IfOk result HasExternals }
{
    let plain = plain_types(alloc, unit.types.graph())?;
    let printed = printed_types(alloc, &plain.types, &unit.entities)?;
    let order = ordered(alloc, &unit.entities)?;
    let numbers = numbered(alloc, unit.entities.len(), &order)?;
    let ordinary = plain_ordinary(alloc, &numbers, &unit.ordinary)?;
    let shared = UnitOut {
        graph: plain.graph,
        types: plain.types,
        numbers,
        printed,
        bases,
    };
    let mut f = FunctionOut::new(alloc, shared);
    let globals = globals(&mut f, &unit.types, &unit.entities, &order)?;
    let sites = sites(alloc, &unit.entities, &order, &globals)?;
    Ok(Fronted {
        cil: CilUnit {
            graph: f.into_graph(),
            globals,
        },
        sites,
        ordinary,
    })
}
