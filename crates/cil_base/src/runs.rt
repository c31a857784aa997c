use crate::bytes::Bytes;

/// What a program is run in (C11 5.1.2.2.1): its argument words, the first of which names the program,
/// and all bytes of its standard input.
#[derive(Drop)]
pub struct Env {
    pub args: Vec<Bytes>,
    pub input: Bytes,
}

/// How a bounded run ends, with the bytes that were written until then.
#[derive(Drop)]
pub enum Outcome {
    /// The program ended, with this exit status.
    Exit(u8, Bytes),
    /// The bound was reached first.
    Running(Bytes),
    /// The program's behaviour is undefined (C11 3.4.3).
    Undefined(Bytes),
}
