use cil_base::NamePool;
use cil_tree::{Body, CilUnit};

/// What the statements of a function speak of: its program, with the texts of names, and its body.
#[derive(Clone, Copy)]
pub struct Scope<'a> {
    pub unit: &'a CilUnit,
    pub names: &'a NamePool,
    pub body: &'a Body,
}
