use crate::units::Site;
use cil_base::{NameId, TypeId, UnitNo};
use type_links::Group;

/// What a unit declares of one of its external names (C11 6.2.2p2).
#[derive(Clone, Copy)]
pub struct LinkedSite {
    /// The unit.
    pub unit: UnitNo,
    /// The composite type of its declarations there (C11 6.2.7p3).
    pub ty: TypeId,
    /// Where it is declared and defined there.
    pub site: Site,
}

/// An external name, with its declarations in the order of units.
#[derive(Drop)]
pub struct LinkedName {
    /// The name.
    pub name: NameId,
    /// Its declarations: one site for each unit that has one.
    pub sites: Vec<LinkedSite>,
}

/// The external names of several units, in the order in which they first appear.
#[derive(Drop)]
pub struct Links {
    /// The names.
    pub names: Vec<LinkedName>,
    /// For each name its parties, one for each of its sites.
    pub groups: Vec<Group>,
}
