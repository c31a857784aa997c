use cil_base::{TypeId, UnitNo};

/// The declarations of one external name in one unit (C11 6.2.2p2).
#[derive(Clone, Copy)]
pub struct Party {
    /// The unit.
    pub unit: UnitNo,
    /// Their composite type (C11 6.2.7p4).
    pub ty: TypeId,
    /// Whether it is a function that is defined with an empty identifier list (C11 6.7.6.3p14).
    pub bare: bool,
}

/// The declarations of one external name: a party for each unit that has one, in the order of units.
#[derive(Drop)]
pub struct Group {
    /// The parties.
    pub parties: Vec<Party>,
}
