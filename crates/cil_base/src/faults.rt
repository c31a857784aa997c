ghost use Rattle.std.specs.Prelude.{◌≡◌};
ghost use Rattle.cil_base.specs.Fault.{fault_number, feature_number, feature_text, code_number, code_text, what_number, what_text};

use crate::memory::Memory;
use crate::numbers::{NameId, UnitNo};
use std::alloc::{AllocError, AllocFailed};

/// A place in the source: a token of a unit, with the presumed file and line (C11 6.10.4) on which it
/// begins. The unit's end counts as a token behind the last one.
#[derive(Clone, Copy, Debug, PartialEq, Eq)]
pub struct Place {
    pub unit: UnitNo,
    /// The token's number in its unit, from 0.
    pub token: u32,
    pub file: NameId,
    pub line: u32,
}

/// What of C and of its common extensions is left out (own choice).
#[derive(Clone, Copy, Debug, PartialEq, Eq)]
pub enum Feature {
    /// A floating type or constant.
    Floating = 1,
    /// The qualifier `volatile`.
    Volatile = 2,
    /// `_Complex` and `_Imaginary`.
    Complex = 3,
    /// `_Atomic`.
    Atomic = 4,
    /// `_Thread_local` and its other spelling.
    ThreadLocal = 5,
    /// `_Alignas`.
    Alignas = 6,
    /// `_Generic`.
    Generic = 7,
    /// The identifiers `setjmp` and `longjmp`.
    Jump = 8,
    /// `asm` in each spelling.
    Assembly = 9,
    /// The builtins for variable arguments.
    Varargs = 10,
    /// A literal with an encoding prefix (C11 6.4.4.4, 6.4.5).
    Prefixed = 11,
    /// A character constant of several characters.
    MultiChar = 12,
    /// A token that holds a universal character name (C11 6.4.3).
    Universal = 13,
    /// The line `#pragma pack`.
    Pack = 14,
    /// The 128-bit integer types.
    Int128 = 15,
    /// `__func__` and its other spelling (C11 6.4.2.2).
    FuncName = 16,
    /// `typeof` in each spelling, and `__auto_type`.
    Typeof = 17,
    /// An attribute that is not skipped.
    Attribute = 18,
    /// A bit-field (C11 6.7.2.1p9).
    BitField = 19,
    /// An array bound that is no constant (C11 6.7.6.2p4).
    VariableArray = 20,
    /// A function defined with an identifier list (C11 6.9.1p6).
    IdentifierList = 21,
    /// An inline function with external linkage (C11 6.7.4p7).
    ExternalInline = 22,
    /// A definition of a function with variable arguments.
    VariadicDefinition = 23,
    /// An initialiser of a flexible array member.
    FlexibleInit = 24,
}

impl Feature {
    /// The feature's number, from 1 to 24: at one token the lower one comes first.
    pub fn number(self) -> u8
        ensures { result ≡ feature_number self }
    {
        self as u8
    }

    /// The words that name the feature in a message.
    pub fn text(self) -> &'static str
        ensures { result.now ≡ feature_text self }
    {
        match self {
            Feature::Floating => "floating",
            Feature::Volatile => "volatile",
            Feature::Complex => "complex",
            Feature::Atomic => "atomic",
            Feature::ThreadLocal => "thread local",
            Feature::Alignas => "alignas",
            Feature::Generic => "generic",
            Feature::Jump => "setjmp",
            Feature::Assembly => "assembly",
            Feature::Varargs => "va_list",
            Feature::Prefixed => "prefixed literal",
            Feature::MultiChar => "multi-character constant",
            Feature::Universal => "universal character name",
            Feature::Pack => "pragma pack",
            Feature::Int128 => "int128",
            Feature::FuncName => "function name",
            Feature::Typeof => "typeof",
            Feature::Attribute => "attribute",
            Feature::BitField => "bit-field",
            Feature::VariableArray => "variable length array",
            Feature::IdentifierList => "identifier list",
            Feature::ExternalInline => "external inline",
            Feature::VariadicDefinition => "variadic definition",
            Feature::FlexibleInit => "flexible array initialiser",
        }
    }
}

/// A violated constraint of C11, with the clause that has it.
#[derive(Clone, Copy, Debug, PartialEq, Eq)]
pub enum Code {
    /// A constant has no type that holds it (C11 6.4.4p2), or an escape does not fit (6.4.4.4p9).
    IntegerRange = 1,
    /// An identifier has no visible declaration (6.5.1p2).
    Undeclared = 2,
    /// A goto names no label of its function (6.8.6.1p1).
    Label = 3,
    /// A name is declared twice in one scope and name space (6.7p3).
    Redeclared = 4,
    /// Two declarations of one object or function do not agree (6.7p4, 6.2.2p7).
    Conflict = 5,
    /// The specifiers name no type or storage class (6.7.1p2, 6.7.2p2).
    Specifiers = 6,
    /// A tag is used against its declaration (6.7.2.3).
    Tag = 7,
    /// A complete type is needed.
    Incomplete = 8,
    /// A function type stands where none may.
    FunctionType = 9,
    /// A constant bound is below 1 (6.7.6.2p1).
    ArraySize = 10,
    /// A constant expression is needed (6.6).
    NotConstant = 11,
    /// An enumerator does not fit int (6.7.2.2p2).
    EnumRange = 12,
    /// A static assertion fails (6.7.10p2).
    Assertion = 13,
    /// An initialiser does not fit its object (6.7.9).
    Initialiser = 14,
    /// An lvalue is needed (6.5.2.4p1, 6.5.3.1p1, 6.5.3.2p1, 6.5.16p2).
    NotLvalue = 15,
    /// The lvalue is not modifiable (6.3.2.1p1).
    NotModifiable = 16,
    /// An operand has a wrong type (6.5).
    Operand = 17,
    /// A value may not be assigned to such a place (6.5.16.1p1).
    Assignment = 18,
    /// There is no such member (6.5.2.3).
    Member = 19,
    /// The called expression or the number of arguments is wrong (6.5.2.2).
    Call = 20,
    /// A cast is not between scalar types (6.5.4p2).
    Cast = 21,
    /// A return does not fit its function (6.8.6.4p1).
    Return = 22,
    /// A jump or label stands outside its statement (6.8.1p2, 6.8.6).
    Outside = 23,
    /// Two cases are equal, or there are two defaults (6.8.4.2p3).
    Case = 24,
    /// A controlling expression has a wrong type (6.8.4, 6.8.5).
    Condition = 25,
    /// A declared name is reserved (7.1.3, and `__builtin_`).
    Reserved = 26,
    /// `restrict` stands on no pointer to an object type (6.7.3p2).
    Restrict = 27,
    /// The address of a register object is taken (6.5.3.2p1).
    Register = 28,
    /// A name is defined twice, or used and not defined (6.9p3, p5).
    Defined = 29,
}

impl Code {
    /// The constraint's number, from 1 to 29: at one node the lower one comes first.
    pub fn number(self) -> u8
        ensures { result ≡ code_number self }
    {
        self as u8
    }

    /// The words that name the constraint in a message.
    pub fn text(self) -> &'static str
        ensures { result.now ≡ code_text self }
    {
        match self {
            Code::IntegerRange => "integer range",
            Code::Undeclared => "undeclared",
            Code::Label => "label",
            Code::Redeclared => "redeclared",
            Code::Conflict => "conflict",
            Code::Specifiers => "specifiers",
            Code::Tag => "tag",
            Code::Incomplete => "incomplete",
            Code::FunctionType => "function type",
            Code::ArraySize => "array size",
            Code::NotConstant => "not constant",
            Code::EnumRange => "enumerator range",
            Code::Assertion => "assertion",
            Code::Initialiser => "initialiser",
            Code::NotLvalue => "not an lvalue",
            Code::NotModifiable => "not modifiable",
            Code::Operand => "operand",
            Code::Assignment => "assignment",
            Code::Member => "member",
            Code::Call => "call",
            Code::Cast => "cast",
            Code::Return => "return",
            Code::Outside => "outside",
            Code::Case => "case",
            Code::Condition => "condition",
            Code::Reserved => "reserved",
            Code::Restrict => "restrict",
            Code::Register => "register",
            Code::Defined => "defined",
        }
    }
}

/// What may not grow past a limit (own), and the greatest size that is accepted.
#[derive(Clone, Copy, Debug, PartialEq, Eq)]
pub enum What {
    /// Bytes of a unit: 4,194,304.
    UnitBytes = 1,
    /// Bytes of the units so far: 16,777,216.
    TotalBytes = 2,
    /// Bytes of an identifier: 1,024.
    NameBytes = 3,
    /// Bytes of a type: 2^31 - 1.
    ObjectSize = 4,
    /// Parameters, automatic objects and compound literals of a function: 65,535.
    Locals = 5,
    /// Explicit scalars of an initialiser: 65,536.
    Scalars = 6,
    /// Bytes of a printed text: 268,435,456.
    PrintedBytes = 7,
}

impl What {
    /// The limit's number, from 1 to 7.
    pub fn number(self) -> u8
        ensures { result ≡ what_number self }
    {
        self as u8
    }

    /// The words that name the limit in a message.
    pub fn text(self) -> &'static str
        ensures { result.now ≡ what_text self }
    {
        match self {
            What::UnitBytes => "unit bytes",
            What::TotalBytes => "total bytes",
            What::NameBytes => "name bytes",
            What::ObjectSize => "object size",
            What::Locals => "locals",
            What::Scalars => "scalars",
            What::PrintedBytes => "printed bytes",
        }
    }
}

/// Why an input is refused.
#[derive(Clone, Copy, Debug, PartialEq, Eq)]
pub enum Fault {
    /// Bytes are no token (C11 6.4), or a line is no marker.
    Lexical,
    /// A feature is left out.
    Excluded(Feature),
    /// The tokens are no translation unit (C11 Annex A).
    Syntax,
    /// A constraint is violated.
    Constraint(Code),
    /// A limit is passed.
    Limit(What),
    /// Two units define one external name (C11 6.9p5).
    Duplicate,
    /// Two units declare one external name with types that are not compatible (C11 6.2.7p2).
    Incompatible,
}

impl Fault {
    /// The number of the fault's kind, from 1 to 7.
    pub fn number(&self) -> u8
        ensures { result ≡ fault_number self.now }
    {
        match self {
            Fault::Lexical => 1,
            Fault::Excluded(_) => 2,
            Fault::Syntax => 3,
            Fault::Constraint(_) => 4,
            Fault::Limit(_) => 5,
            Fault::Duplicate => 6,
            Fault::Incompatible => 7,
        }
    }
}

/// A refusal of the input: the fault and its place. A syntax fault, a duplicate definition and an
/// incompatible declaration have a second place.
#[derive(Clone, Copy, Debug)]
pub struct Refusal {
    pub fault: Fault,
    pub at: Place,
    pub other: Option<Place>,
}

/// Why a pass gives no result: it refuses its input, or it wants memory.
#[derive(Clone, Copy, Debug)]
pub enum Stop {
    Refused(Refusal),
    Memory,
}

impl From<Memory> for Stop {
    ghost use Rattle.cil_base.specs.declared.faults.Stop.TheVariants.{Memory as WantOfMemory};

    ghost from_gives = { λ _ stop. stop ≡ WantOfMemory };

    fn from(_want: Memory) -> Self {
        Stop::Memory
    }
}

impl From<AllocError> for Stop {
    ghost use Rattle.cil_base.specs.declared.faults.Stop.TheVariants.{Memory as WantOfMemory};

    ghost from_gives = { λ _ stop. stop ≡ WantOfMemory };

    fn from(_failed: AllocError) -> Self {
        Stop::Memory
    }
}

impl<T: Drop> From<AllocFailed<T>> for Stop {
    ghost use Rattle.cil_base.specs.declared.faults.Stop.TheVariants.{Memory as WantOfMemory};

    ghost from_gives = { λ _ stop. stop ≡ WantOfMemory };

    fn from(_failed: AllocFailed<T>) -> Self {
        Stop::Memory
    }
}

/// Why a rule gives no result: its operands are refused, at a place that the caller knows, or it wants
/// memory.
#[derive(Clone, Copy, Debug, PartialEq, Eq)]
pub enum RuleStop {
    Bad(Fault),
    Memory,
}

impl From<Memory> for RuleStop {
    ghost use Rattle.cil_base.specs.declared.faults.RuleStop.TheVariants.{Memory as WantOfMemory};

    ghost from_gives = { λ _ stop. stop ≡ WantOfMemory };

    fn from(_want: Memory) -> Self {
        RuleStop::Memory
    }
}

impl From<AllocError> for RuleStop {
    ghost use Rattle.cil_base.specs.declared.faults.RuleStop.TheVariants.{Memory as WantOfMemory};

    ghost from_gives = { λ _ stop. stop ≡ WantOfMemory };

    fn from(_failed: AllocError) -> Self {
        RuleStop::Memory
    }
}

impl<T: Drop> From<AllocFailed<T>> for RuleStop {
    ghost use Rattle.cil_base.specs.declared.faults.RuleStop.TheVariants.{Memory as WantOfMemory};

    ghost from_gives = { λ _ stop. stop ≡ WantOfMemory };

    fn from(_failed: AllocFailed<T>) -> Self {
        RuleStop::Memory
    }
}
