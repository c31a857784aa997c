ghost use Rattle.std.specs.Prelude.{◌≡◌, ◌↔◌, length, true, is_some, IfOk, IfSome};
ghost use Rattle.cil_tree.specs.WellFormedTypes.{AreTypes};
ghost use Rattle.layout_lp64.specs.Tables.{InStep};
ghost use Rattle.cil_check.specs.Rules.{AreTops, KeepRules};

use crate::aggregates::{aggregates_fit, enums_first};
use crate::elements::{Tops, element_tops};
use crate::nodes::nodes_fit;
use cil_base::Memory;
use layout_lp64::{LayoutStop, Layouts};
use std::alloc::Global;
use type_graph::TypeGraph;

/// Whether the types keep their rules but for sizes.
#[tactic(auto, using(crate::proofs::TypeRules::keep))]
fn keep_rules(g: &TypeGraph, tops: &[Tops]) -> bool
    requires table { AreTops tops.now g.now }
    requires whole { length tops.now ≡ length g.now.nodes }
    ensures { (result ≡ true) ↔ KeepRules g.now }
{
    nodes_fit(g, tops) && enums_first(g) && aggregates_fit(g, tops)
}

/// The layouts, if no aggregate has too many bytes, also one that no type names.
#[tactic(auto, using(crate::proofs::TypeRules::sizes_tell))]
fn with_small_aggregates(g: &TypeGraph, layouts: Layouts) -> Option<Layouts>
    requires step { InStep layouts g.now }
    requires rules { KeepRules g.now }
    ensures exact { (is_some result ≡ true) ↔ AreTypes g.now }
    ensures step { IfSome result (λ l. InStep l g.now) }
{
    if layouts.aggregates_fit(g) {
        Some(layouts)
    } else {
        None
    }
}

/// The layouts of the types of a program; none where these do not keep the rules of types.
///
/// Memory comes only for want of memory.
#[tactic(auto, using(crate::proofs::TypeRules::too_big))]
pub(crate) fn well_formed_layouts(alloc: Global, g: &TypeGraph) -> Result<Option<Layouts>, Memory>
    ensures exact { IfOk result (λ o. (is_some o ≡ true) ↔ AreTypes g.now) }
    ensures step { IfOk result (λ o. IfSome o (λ l. InStep l g.now)) }
{
    let tops = element_tops(alloc, g)?;
    if !keep_rules(g, &tops) {
        return Ok(None);
    }
    match Layouts::of_graph(alloc, g) {
        Ok(layouts) => Ok(with_small_aggregates(g, layouts)),
        Err(LayoutStop::TooBig(_)) => Ok(None),
        Err(LayoutStop::Memory) => Err(Memory),
    }
}

/// Whether the types of a program keep the rules of types.
///
/// Memory comes only for want of memory.
pub fn types_are_well_formed(alloc: Global, g: &TypeGraph) -> Result<bool, Memory>
    ensures { IfOk result (λ b. (b ≡ true) ↔ AreTypes g.now) }
{
    let layouts = well_formed_layouts(alloc, g)?;
    Ok(layouts.is_some())
}
