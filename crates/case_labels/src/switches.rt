ghost use Rattle.std.specs.Prelude.{◌≡◌, ◌++◌, [], ◌∷◌, false, true, not, IfOk, IfSome};
ghost use Rattle.case_labels.specs.Cases.{case_value};
ghost use Rattle.case_labels.specs.Switches.{IsSwitch};

use cil_base::{IntKind, Memory, wrap};
use indexmap::IndexSet;
use std::alloc::Global;

/// A switch statement whose body is walked (C11 6.8.4.2).
#[derive(Drop)]
pub struct Switch {
    kind: IntKind,
    values: IndexSet<i128>,
    /// Whether it has a default label.
    fallback: bool,
}

impl Switch {
    /// A switch before its first label, whose promoted controlling expression has that kind.
    pub fn new(alloc: Global, kind: IntKind) -> Self
        ensures { IsSwitch kind [] false result }
    {
        Switch {
            kind,
            values: IndexSet::new(alloc),
            fallback: false,
        }
    }

    /// The kind of the promoted controlling expression.
    pub fn kind(&self) -> IntKind
        ensures { result ≡ self.now.kind }
    {
        self.kind
    }

    /// The value of a case label, converted to the switch's kind; none where a label before has it (C11 6.8.4.2p3, p5).
    pub fn case(&mut self, v: i128) -> Result<Option<i128>, Memory>
        ensures value { IfOk result (λ n. n ≡ case_value self.old.kind self.old.values.keys v) }
        ensures noted { IfOk result (λ n. IfSome n (λ value. IsSwitch self.old.kind (self.old.values.keys ++ value ∷ []) self.old.fallback self.new)) }
    {
        let value = wrap(self.kind, v);
        let (_place, is_new) = self.values.insert_full(value)?;
        if is_new { Ok(Some(value)) } else { Ok(None) }
    }

    /// Notes a default label. It answers whether it was the first (C11 6.8.4.2p3).
    pub fn fall_back(&mut self) -> bool
        ensures first { result ≡ not self.old.fallback }
        ensures noted { IsSwitch self.old.kind self.old.values.keys true self.new }
    {
        let first = !self.fallback;
        self.fallback = true;
        first
    }
}
