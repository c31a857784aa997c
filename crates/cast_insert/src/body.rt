use crate::labels::Labels;
use case_labels::Switch;
use cil_base::{Code, IntKind, TypeId};
use std::alloc::Global;
use typed_parts::{WalkStop, violated};

/// The function whose body is walked.
#[derive(Drop)]
pub(crate) struct Body {
    /// The type of its result.
    pub(crate) result: TypeId,
    pub(crate) labels: Labels,
    /// The switches around the statement that is walked, the innermost last.
    switches: Vec<Switch>,
}

/// What stands around a statement (C11 6.8.6.2p1, 6.8.6.3p1).
#[derive(Clone, Copy)]
pub(crate) enum Around {
    /// Neither a loop nor a switch.
    Nothing,
    /// A switch, and no loop.
    Switch,
    /// A loop.
    Loop,
}

impl Around {
    /// What stands around the body of a switch.
    pub(crate) fn switched(self) -> Around {
        match self {
            Around::Nothing | Around::Switch => Around::Switch,
            Around::Loop => Around::Loop,
        }
    }
}

impl Body {
    /// A body before its first statement.
    pub(crate) fn new(alloc: Global, returns: TypeId) -> Self {
        Body {
            result: returns,
            labels: Labels::new(alloc),
            switches: Vec::new(alloc),
        }
    }

    /// Begins the body of a switch of a kind.
    pub(crate) fn begin_switch(&mut self, alloc: Global, kind: IntKind) -> Result<(), WalkStop> {
        self.switches.push(Switch::new(alloc, kind))?;
        Ok(())
    }

    /// Ends the body of the innermost switch.
    pub(crate) fn end_switch(&mut self) {
        self.switches.pop();
    }

    /// A case label with its value as it is written, whose token is given (C11 6.8.1p2, 6.8.4.2p3): the kind and the value.
    pub(crate) fn case(&mut self, at: u32, v: i128) -> Result<(IntKind, i128), WalkStop> {
        match self.switches.last_mut() {
            Some(switch) => match switch.case(v)? {
                Some(value) => Ok((switch.kind(), value)),
                None => Err(violated(at, Code::Case)),
            },
            None => Err(violated(at, Code::Outside)),
        }
    }

    /// A default label, whose token is given (C11 6.8.1p2, 6.8.4.2p3).
    pub(crate) fn fall_back(&mut self, at: u32) -> Result<(), WalkStop> {
        match self.switches.last_mut() {
            Some(switch) => {
                if switch.fall_back() {
                    Ok(())
                } else {
                    Err(violated(at, Code::Case))
                }
            }
            None => Err(violated(at, Code::Outside)),
        }
    }
}

/// `break`, whose token is given (C11 6.8.6.3p1).
pub(crate) fn may_break(at: u32, around: Around) -> Result<(), WalkStop> {
    match around {
        Around::Nothing => Err(violated(at, Code::Outside)),
        Around::Switch | Around::Loop => Ok(()),
    }
}

/// `continue`, whose token is given (C11 6.8.6.2p1).
pub(crate) fn may_continue(at: u32, around: Around) -> Result<(), WalkStop> {
    match around {
        Around::Nothing | Around::Switch => Err(violated(at, Code::Outside)),
        Around::Loop => Ok(()),
    }
}
