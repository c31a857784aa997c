use cil_base::{Constant, Memory};
use std::alloc::Global;

/// A scalar that a step of an initialiser gives a value.
#[derive(Clone, Copy)]
pub(crate) struct Given {
    /// The place of the step among the steps.
    pub(crate) step: usize,
    /// The element of the step's part that is meant, where the step gives a string.
    pub(crate) element: Option<u64>,
    pub(crate) value: Constant,
}

/// What happens to the bytes from an offset on.
#[derive(Clone, Copy)]
pub(crate) enum What {
    /// A step makes those up to an offset zero.
    Cleared { step: usize, to: u64 },
    /// A scalar is given a value.
    Given(Given),
}

/// What a step does, and from where on.
#[derive(Clone, Copy)]
pub(crate) struct Event {
    pub(crate) offset: u64,
    pub(crate) what: What,
}

/// Bytes that are made zero, up to an offset, and last by a step.
#[derive(Clone, Copy)]
struct Open {
    to: u64,
    step: usize,
}

/// Forgets the parts that end at an offset or before it.
fn close(open: &mut Vec<Open>, at: u64) {
    for _i in 0..open.len() {
        match open.last() {
            Some(top) => {
                if top.to > at {
                    return;
                }
            }
            None => return,
        }
        open.pop();
    }
}

/// Whether the bytes at hand are made zero by a step behind another.
fn is_cleared(open: &[Open], step: usize) -> bool {
    match open.last() {
        Some(top) => top.step > step,
        None => false,
    }
}

/// The last step of two that make a part zero: the one around it, and its own.
fn last_of(open: &[Open], step: usize) -> usize {
    match open.last() {
        Some(top) => step.max(top.step),
        None => step,
    }
}

/// Keeps a given value, in the place of an earlier one of the same scalar.
fn keep(kept: &mut Vec<Placed>, placed: Placed) -> Result<(), Memory> {
    match kept.last() {
        Some(before) => {
            if before.offset == placed.offset {
                kept.pop();
            }
        }
        None => {}
    }
    kept.push(placed)?;
    Ok(())
}

/// A given value with the offset of its scalar.
#[derive(Clone, Copy)]
pub(crate) struct Placed {
    pub(crate) offset: u64,
    pub(crate) given: Given,
}

/// The values that stay, by rising offsets: of those given to one scalar the last (C11 6.7.9p19), unless its bytes are made zero behind it.
///
/// The events are those of one object, first all parts that are made zero and then all given values, each in the order of the text. Of two
/// parts that are made zero one lies within the other, or they have no byte in common.
pub(crate) fn swept(alloc: Global, events: Vec<Event>) -> Result<Vec<Placed>, Memory> {
    let mut events = events;
    events.sort_by_key(|event| event.offset)?;
    let mut open = Vec::new(alloc);
    let mut kept = Vec::new(alloc);
    for event in &events {
        close(&mut open, event.offset);
        match event.what {
            What::Cleared { step, to } => {
                let step = last_of(&open, step);
                open.push(Open { to, step })?;
            }
            What::Given(given) => {
                if !is_cleared(&open, given.step) {
                    keep(
                        &mut kept,
                        Placed {
                            offset: event.offset,
                            given,
                        },
                    )?;
                }
            }
        }
    }
    Ok(kept)
}
