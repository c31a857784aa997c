use cil_base::{NameId, Token};

/// A token with the presumed file and line on which it begins (C11 6.10.4).
#[derive(Clone, Copy)]
pub struct Entry {
    pub token: Token,
    pub file: NameId,
    pub line: u32,
}

/// How far the source is read: the number of its bytes, and the presumed file and line there (C11 6.10.4).
#[derive(Clone, Copy)]
pub struct Spot {
    pub start: u32,
    pub file: NameId,
    pub line: u32,
}
