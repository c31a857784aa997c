ghost use Rattle.layout_lp64.specs.Tables.{InStep};
ghost use Rattle.cil_tree.specs.View.{program_of};
ghost use Rattle.cil_printer.specs.Sides.{AreSides};

use crate::sides::Sides;
use cil_base::NamePool;
use cil_tree::CilUnit;
use layout_lp64::Layouts;

/// A program that is printed, with the sizes of its types and the lengths of the first types' declarations.
#[derive(Drop)]
pub(crate) struct Program<'a> {
    pub unit: &'a CilUnit,
    pub names: &'a NamePool,
    pub layouts: &'a Layouts,
    pub sides: &'a [Sides],
    ghost step: { InStep layouts.now unit.now.graph },
    ghost table: { AreSides sides.now (program_of names.now unit.now) },
}
