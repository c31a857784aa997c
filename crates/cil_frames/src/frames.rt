use crate::activations::Automatic;
use crate::calling::Destination;
use cil_code::{Datum, Kind, Step};
use host_calls::HostName;

/// A loaded function of the program.
#[derive(Drop)]
pub struct Function {
    /// The steps of its body, which lead on.
    pub code: Vec<Step>,
    /// The kinds of its parameters, which are its first objects.
    pub parameters: Vec<Option<Kind>>,
    /// The kind of its result.
    pub result: Option<Kind>,
    /// Its other objects with automatic storage duration.
    pub objects: Vec<Automatic>,
    /// What it gives where its body ends without a value (C11 5.1.2.2.3p1, 6.9.1p12).
    pub end: Datum,
}

/// What an entity of a run means to calls.
#[derive(Drop)]
pub enum Entity {
    /// An object, which cannot be called.
    Data,
    /// A function that a unit defines.
    Program(Function),
    /// A function of the host.
    Host(HostName),
}

/// An activation that waits for the result of a call: its function and number, the place behind the call, and where
/// the result goes.
#[derive(Clone, Copy)]
pub struct Frame {
    /// The number of its function's entity.
    pub function: usize,
    /// Its number.
    pub act: u64,
    /// The place behind the call.
    pub place: usize,
    /// Where the result goes, if it is stored.
    pub to: Option<Destination>,
}
