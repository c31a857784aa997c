ghost use Rattle.std.specs.Prelude.{◌≡◌};
ghost use Rattle.cil_turns.specs.Standing.{IsFresh};

use crate::ends::RunEnd;
use byte_mem::Store;
use cil_code::Kind;
use cil_frames::{Argument, Frame};
use cil_streams::Streams;
use std::alloc::Global;

/// A run of a program: its memory, its input and output, and the units that are left. Own.
#[derive(Drop)]
pub struct Run {
    pub(crate) alloc: Global,
    /// Its memory.
    pub mem: Store,
    /// Its input and output.
    pub streams: Streams,
    /// The units that are left.
    pub left: u64,
    /// The number of the next activation.
    pub(crate) next: u64,
    /// The activations that wait for results of calls, the innermost last.
    pub(crate) frames: Vec<Frame>,
}

impl Run {
    /// A run that has not begun.
    pub fn new(alloc: Global, mem: Store, streams: Streams, left: u64) -> Run
        ensures fresh { IsFresh result }
        ensures mem { result.mem ≡ mem }
        ensures streams { result.streams ≡ streams }
        ensures left { result.left ≡ left }
    {
        Run {
            alloc,
            mem,
            streams,
            left,
            next: 0,
            frames: Vec::new(alloc),
        }
    }
}

/// A call from outside of the program: what is called, the kind of the result that is asked for, and the arguments.
#[derive(Drop)]
pub struct FirstCall {
    /// The number of an entity.
    pub callee: u32,
    /// The kind of the result that is asked for.
    pub result: Option<Kind>,
    /// What is passed, in order.
    pub arguments: Vec<Argument>,
}

/// Where a machine stands: at a place of a function's steps, in an activation.
#[derive(Clone, Copy)]
pub struct Stand {
    /// The number of the function's entity.
    pub function: usize,
    /// The number of the activation.
    pub act: u64,
    /// The place of the step that is next.
    pub place: usize,
}

/// What comes behind a turn of a machine.
#[derive(Clone, Copy)]
pub enum Turn {
    /// It stands there.
    On(Stand),
    /// The run has ended.
    Stopped(RunEnd),
}
