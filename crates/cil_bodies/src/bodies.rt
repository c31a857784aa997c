ghost use Rattle.std.specs.Prelude.{◌≡◌, IfOk};
ghost use Rattle.cil_bodies.specs.Bodies.{names_of, IsNewBody};

use cil_base::{Memory, NameId};
use cil_tree::{Body, Local};
use std::alloc::Global;

/// The names of locals.
#[tactic(auto, using(crate::proofs::BodyLaws::names_start, crate::proofs::BodyLaws::names_next, crate::proofs::BodyLaws::names_end))]
fn names_of(alloc: Global, locals: &[Local]) -> Result<Vec<NameId>, Memory>
    ensures { IfOk result (λ ns. ns.items ≡ names_of locals.now) }
{
    let mut names = Vec::new(alloc);
    for i in 0..locals.len() {
        names.push(locals[i].name)?;
    }
    Ok(names)
}

/// The body of a function with these parameters, which are its first locals (C11 6.9.1p9): it has no other locals, no labels and no
/// statements yet.
pub fn new_body(alloc: Global, params: Vec<Local>) -> Result<Body, Memory>
    ensures { IfOk result (IsNewBody params.items) }
{
    let names = names_of(alloc, &params)?;
    Ok(Body {
        params: names,
        locals: params,
        labels: Vec::new(alloc),
        stmts: Vec::new(alloc),
    })
}
