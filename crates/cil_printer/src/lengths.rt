ghost use Rattle.std.specs.Prelude.{◌≡◌, ◌<◌, length, IfOk};
ghost use Rattle.type_graph.specs.Shapes.{shape};
ghost use Rattle.layout_lp64.specs.Tables.{InStep};
ghost use Rattle.cil_tree.specs.View.{program_of};
ghost use Rattle.cil_printer.specs.Output.{capped};
ghost use Rattle.cil_printer.specs.Spaced.{spaced};
ghost use Rattle.cil_printer.specs.Sides.{before, after, IsSides, AreSides};
ghost use Rattle.cil_printer.specs.Seen.{tree_of};

use crate::program::Program;
use crate::sides::Sides;
use crate::sink::Sink;
use cil_base::{NamePool, TypeId};
use cil_tree::CilUnit;
use layout_lp64::Layouts;
use std::alloc::AllocError;

impl<'a> Program<'a> {
    /// The number of bytes that a declaration of a type has before what it declares, or the greatest number.
    #[tactic(auto, using(crate::proofs::Counted::tokens_counted, crate::proofs::Counted::tokens_length))]
    fn length_before(&self, t: TypeId) -> u64
        requires { t.0 < length (tree_of self.now).graph.nodes }
        ensures { result ≡ capped (length (spaced (before (tree_of self.now) (shape (tree_of self.now).graph.nodes t.0)))) }
    {
        let mut out = Sink::counting();
        self.push_before(&mut out, t);
        out.length()
    }

    /// The number of bytes that it has behind.
    #[tactic(auto, using(crate::proofs::Counted::tokens_counted, crate::proofs::Counted::tokens_length))]
    fn length_behind(&self, t: TypeId) -> u64
        requires { t.0 < length (tree_of self.now).graph.nodes }
        ensures { result ≡ capped (length (spaced (after (tree_of self.now) (shape (tree_of self.now).graph.nodes t.0)))) }
    {
        let mut out = Sink::counting();
        self.push_after(&mut out, t);
        out.length()
    }

    /// The entry of a type, from those of smaller numbers.
    fn sides_at(&self, t: TypeId) -> Sides
        requires { t.0 < length (tree_of self.now).graph.nodes }
        ensures { IsSides (tree_of self.now) t.0 result }
    {
        let before = self.length_before(t);
        let behind = self.length_behind(t);
        Sides { before, behind }
    }
}

/// The entry of a type, from those of all smaller numbers.
fn next_sides(
    unit: &CilUnit,
    names: &NamePool,
    layouts: &Layouts,
    sides: &[Sides],
    t: TypeId,
) -> Sides
    requires step { InStep layouts.now unit.now.graph }
    requires known { AreSides sides.now (program_of names.now unit.now) }
    requires there { t.0 < length unit.now.graph.nodes }
    ensures { IsSides (program_of names.now unit.now) t.0 result }
{
    let program = Program {
        unit,
        names,
        layouts,
        sides,
    };
    program.sides_at(t)
}

/// The lengths of the declarations of all types, each from those of the types that it names. So a text's length is
/// known from as many additions as there are tokens in its tree, however long the declarators would be.
pub(crate) fn all_sides(
    unit: &CilUnit,
    names: &NamePool,
    layouts: &Layouts,
) -> Result<Vec<Sides>, AllocError>
    requires { InStep layouts.now unit.now.graph }
    ensures { IfOk result (λ v. AreSides v.items (program_of names.now unit.now)) }
{
    let mut sides = Vec::with_capacity(unit.graph.alloc(), unit.graph.len() as usize)?;
    for t in 0..unit.graph.len() {
        let next = next_sides(unit, names, layouts, &sides, TypeId(t));
        sides.push(next)?;
    }
    Ok(sides)
}
