/// The number of a translation unit: its place in the list of units.
#[derive(Clone, Copy, Debug, PartialEq, Eq)]
pub struct UnitNo(pub u32);

/// The number of a name: the place of its text in the name pool.
#[derive(Clone, Copy, Debug, PartialEq, Eq, Hash)]
pub struct NameId(pub u32);

/// The number of a type: its place among the nodes of a type graph.
#[derive(Clone, Copy, Debug, PartialEq, Eq, Hash)]
pub struct TypeId(pub u32);

/// The number of a struct, union or enum: its place among the aggregates of a type graph.
#[derive(Clone, Copy, Debug, PartialEq, Eq, Hash)]
pub struct AggId(pub u32);

/// The number of an object or function with static storage duration: its place among a unit's globals.
#[derive(Clone, Copy, Debug, PartialEq, Eq, Hash)]
pub struct EntityId(pub u32);

/// The number of a parameter or of an object with automatic storage duration in its function.
#[derive(Clone, Copy, Debug, PartialEq, Eq)]
pub struct LocalId(pub u32);

/// The number of a label in its function.
#[derive(Clone, Copy)]
pub struct LabelId(pub u32);
