use cil_base::{Code, LabelId, NameId};
use decl_types::is_reserved;
use indexmap::IndexMap;
use std::alloc::Global;
use typed_parts::{WalkStop, Walker, impossible, violated};

/// A goto, by the number of its token and its label.
#[derive(Clone, Copy)]
struct Jump {
    at: u32,
    label: LabelId,
}

/// Whether a label that is named is set.
#[derive(Clone, Copy, PartialEq, Eq)]
enum Standing {
    Named,
    Set,
}

/// The labels of a function (C11 6.2.1p3), numbered as they are met.
#[derive(Drop)]
pub(crate) struct Labels {
    numbers: IndexMap<NameId, LabelId>,
    pub(crate) names: Vec<NameId>,
    standing: Vec<Standing>,
    jumps: Vec<Jump>,
}

impl Labels {
    /// No labels.
    pub(crate) fn new(alloc: Global) -> Self {
        Labels {
            numbers: IndexMap::new(alloc),
            names: Vec::new(alloc),
            standing: Vec::new(alloc),
            jumps: Vec::new(alloc),
        }
    }

    /// The number of a label.
    fn number(&mut self, n: NameId) -> Result<LabelId, WalkStop> {
        if let Some(label) = self.numbers.get(&n) {
            return Ok(*label);
        }
        let count = self.names.len();
        if count >= u32::MAX as usize {
            return Err(impossible());
        }
        let label = LabelId(count as u32);
        self.names.push(n)?;
        self.standing.push(Standing::Named)?;
        self.numbers.insert(n, label)?;
        Ok(label)
    }

    /// Whether a label is set.
    fn is_set(&self, label: LabelId) -> bool {
        match self.standing.get(label.0 as usize) {
            Some(standing) => *standing == Standing::Set,
            None => false,
        }
    }

    /// A label before its statement, whose token is given (C11 6.8.1p3).
    pub(crate) fn set(&mut self, at: u32, n: NameId) -> Result<LabelId, WalkStop> {
        let label = self.number(n)?;
        match self.standing.get_mut(label.0 as usize) {
            Some(standing) => {
                if *standing == Standing::Set {
                    return Err(violated(at, Code::Redeclared));
                }
                *standing = Standing::Set;
                Ok(label)
            }
            None => Err(impossible()),
        }
    }

    /// A goto, whose token is given (C11 6.8.6.1).
    pub(crate) fn jump(&mut self, at: u32, n: NameId) -> Result<LabelId, WalkStop> {
        let label = self.number(n)?;
        self.jumps.push(Jump { at, label })?;
        Ok(label)
    }

    /// Refuses the first goto that names no label of the function (C11 6.8.6.1p1).
    pub(crate) fn all_set(&self) -> Result<(), WalkStop> {
        for jump in self.jumps.as_slice() {
            if !self.is_set(jump.label) {
                return Err(violated(jump.at, Code::Label));
            }
        }
        Ok(())
    }
}

/// A label that is declared may not be reserved (C11 7.1.3, own).
pub(crate) fn not_reserved(w: &Walker<'_>, at: u32, n: NameId) -> Result<(), WalkStop> {
    if is_reserved(n, w.names) {
        Err(violated(at, Code::Reserved))
    } else {
        Ok(())
    }
}
