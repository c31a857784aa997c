/// The greatest number of bytes of a translation unit (own).
pub const UNIT_BYTES: usize = 4_194_304;

/// The greatest number of bytes of all translation units of a merge together (own).
pub const TOTAL_BYTES: usize = 16_777_216;

/// The greatest number of bytes of a CIL text (own).
pub const TEXT_BYTES: usize = 268_435_456;

/// The bound on the steps of a run where no other is given (own).
pub const RUN_STEPS: u64 = 10_000_000;

/// The greatest size of an object or type, in bytes (C11 5.2.4.1 asks for 65,535).
pub const OBJECT_BYTES: u32 = 2_147_483_647;

/// The greatest number of objects that a function declares, its parameters among them (C11 5.2.4.1 asks for 511 identifiers in a block).
pub const FUNCTION_LOCALS: usize = 65_535;

/// The greatest number of scalars that an initialiser for an object of automatic storage duration sets (own).
pub const INITIALISED_SCALARS: u64 = 65_536;
