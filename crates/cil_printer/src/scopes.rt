ghost use Rattle.std.specs.Prelude.{◌≡◌, ◌<◌, Option, Some, None};
ghost use Rattle.cil_base.specs.declared.operators.BinOp.TheVariants.{Add, Sub};
ghost use Rattle.cil_tree.specs.Typing.{local_type};
ghost use Rattle.cil_tree.specs.Text.{local_name, label_name};
ghost use Rattle.cil_printer.specs.Seen.{seen, scope_in, nodes_in, moved};

use crate::function::Function;
use cil_base::{BinOp, LabelId, LocalId, TypeId};

impl<'a> Function<'a> {
    /// The name of a local.
    pub(crate) fn local_name(&self, l: LocalId) -> &[u8]
        ensures { result.now ≡ local_name (scope_in self.now).locals l.0 }
    {
        match self.locals.get(l.0 as usize) {
            None => b"",
            Some(x) => self.program.name(x.name),
        }
    }

    /// The type of a local.
    pub(crate) fn local_type(&self, l: LocalId) -> Option<TypeId>
        ensures { seen (nodes_in self.now) result ≡ local_type (scope_in self.now).locals l.0 }
    {
        match self.locals.get(l.0 as usize) {
            None => None,
            Some(x) => Some(x.ty),
        }
    }

    /// The name of a label.
    #[tactic(auto, using(crate::proofs::Found::label_named, crate::proofs::Found::label_unnamed))]
    pub(crate) fn label_name(&self, l: LabelId) -> &[u8]
        ensures { result.now ≡ label_name (scope_in self.now) l.0 }
    {
        match self.labels.get(l.0 as usize) {
            None => b"",
            Some(n) => self.program.name(*n),
        }
    }

    /// What a sum or difference with a pointer points to, from what its operands point to (C11 6.5.6p8).
    pub(crate) fn moved(
        &self,
        op: BinOp,
        left: Option<TypeId>,
        right: Option<TypeId>,
    ) -> Option<TypeId>
        ensures { seen (nodes_in self.now) result ≡ moved op (seen (nodes_in self.now) left) (seen (nodes_in self.now) right) }
    {
        match op {
            BinOp::Add => self.sum(left, right),
            BinOp::Sub => self.difference(left, right),
            _ => None,
        }
    }

    /// What a sum with a pointer points to.
    fn sum(&self, left: Option<TypeId>, right: Option<TypeId>) -> Option<TypeId>
        ensures { seen (nodes_in self.now) result ≡ moved Add (seen (nodes_in self.now) left) (seen (nodes_in self.now) right) }
    {
        match self.program.there(left) {
            None => right,
            Some(_) => left,
        }
    }

    /// What a pointer that an integer was taken from points to.
    fn difference(&self, left: Option<TypeId>, right: Option<TypeId>) -> Option<TypeId>
        ensures { seen (nodes_in self.now) result ≡ moved Sub (seen (nodes_in self.now) left) (seen (nodes_in self.now) right) }
    {
        match self.program.there(right) {
            None => left,
            Some(_) => None,
        }
    }
}
