ghost use Rattle.cil_machine.specs.Meant.{SetsAreMeant, ZerosAreMeant, CopiesAreMeant};

/// An assignment of a scalar changes memory as the instruction means, where place and value are resolved, and one is
/// undefined where the other is (C11 6.5.16.1p2).
pub fn sets_are_meant()
    ensures { SetsAreMeant }
{}

/// A zero fill changes memory as the instruction means (own).
pub fn zeros_are_meant()
    ensures { ZerosAreMeant }
{}

/// An assignment of a struct or union changes memory as the instruction means (C11 6.5.16.1p2; that all bytes are
/// stored is own).
pub fn copies_are_meant()
    ensures { CopiesAreMeant }
{}
