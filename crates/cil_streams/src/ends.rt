use byte_mem::Value;

/// What a call of the host's function over a source and a sink answers.
#[derive(Clone, Copy, Debug, PartialEq, Eq)]
pub enum HostEnd {
    /// A value; Unknown for a function without result.
    Value(Value),
    /// The program ends with that status.
    Exit(u8),
    /// Undefined behaviour (C11 3.4.3).
    Undefined,
    /// A read failed.
    ReadFault,
    /// A write failed.
    WriteFault,
    /// Want of memory.
    Memory,
}
