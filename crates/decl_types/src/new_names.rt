use cil_base::{NameId, NamePool};

/// A name that is declared, with whether it begins with `__builtin_` (own): the pool is asked where the name is met.
#[derive(Clone, Copy)]
pub struct NewName {
    id: NameId,
    reserved: bool,
}

/// Whether a text begins with `__builtin_`.
fn is_builtin(text: &[u8]) -> bool {
    text.len() > 2 && text[1] == b'_' && text.starts_with(b"__builtin_")
}

/// Whether a name begins with `__builtin_`, and may not be declared (own).
pub fn is_reserved(n: NameId, names: &NamePool) -> bool {
    n.0 < names.len() && is_builtin(names.text(n))
}

impl NewName {
    /// A name of a pool.
    pub fn of(id: NameId, names: &NamePool) -> Self {
        NewName {
            id,
            reserved: is_reserved(id, names),
        }
    }

    /// Its number.
    pub fn id(self) -> NameId {
        self.id
    }

    /// Whether it may not be declared.
    pub(crate) fn is_reserved(self) -> bool {
        self.reserved
    }
}
