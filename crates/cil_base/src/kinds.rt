ghost use Rattle.std.specs.Prelude.{◌≡◌};
ghost use Rattle.cil_base.specs.Integer.{size_of, rank_of, is_signed, least, greatest, words_of, suffix_of, is_lp64, is_ilp32, has_kind, long_of, ulong_of, kind_in, pointer_size_of};
ghost use Rattle.cil_base.specs.Arithmetic.{fits};
ghost use Rattle.cil_base.specs.Usual.{has_values_of, unsigned_of, promoted, mixed, common_of_promoted, common};

/// The integer types of C11 6.2.5, with the sizes and signs that they have in the product's data models. `long` and
/// `unsigned long` are a kind of 8 bytes in one model and of 4 in another (`Abi::long`, `Abi::ulong`).
#[derive(Clone, Copy, Debug, PartialEq, Eq)]
pub enum IntKind {
    Bool,
    Char,
    SChar,
    UChar,
    Short,
    UShort,
    Int,
    UInt,
    Long,
    ULong,
    LLong,
    ULLong,
    /// long of 4 bytes.
    Long4,
    /// unsigned long of 4 bytes.
    ULong4,
}

impl IntKind {
    /// The size in bytes (C11 6.5.3.4; own).
    pub fn size(self) -> u32
        ensures { result ≡ size_of self }
    {
        match self {
            IntKind::Bool | IntKind::Char | IntKind::SChar | IntKind::UChar => 1,
            IntKind::Short | IntKind::UShort => 2,
            IntKind::Int | IntKind::UInt | IntKind::Long4 | IntKind::ULong4 => 4,
            IntKind::Long | IntKind::ULong | IntKind::LLong | IntKind::ULLong => 8,
        }
    }

    /// The conversion rank (C11 6.3.1.1p1), from 0 for `_Bool` to 5 for `long long`.
    pub fn rank(self) -> u8
        ensures { result ≡ rank_of self }
    {
        match self {
            IntKind::Bool => 0,
            IntKind::Char | IntKind::SChar | IntKind::UChar => 1,
            IntKind::Short | IntKind::UShort => 2,
            IntKind::Int | IntKind::UInt => 3,
            IntKind::Long | IntKind::ULong | IntKind::Long4 | IntKind::ULong4 => 4,
            IntKind::LLong | IntKind::ULLong => 5,
        }
    }

    /// Whether the kind has negative values (C11 6.2.5p4, p6). Plain char has them (own).
    pub fn is_signed(self) -> bool
        ensures { result ≡ is_signed self }
    {
        match self {
            IntKind::Bool
            | IntKind::UChar
            | IntKind::UShort
            | IntKind::UInt
            | IntKind::ULong
            | IntKind::ULLong
            | IntKind::ULong4 => false,
            IntKind::Char
            | IntKind::SChar
            | IntKind::Short
            | IntKind::Int
            | IntKind::Long
            | IntKind::LLong
            | IntKind::Long4 => true,
        }
    }

    /// The least value (C11 5.2.4.2.1).
    pub fn least(self) -> i128
        ensures { result ≡ least self }
    {
        match self {
            IntKind::Bool
            | IntKind::UChar
            | IntKind::UShort
            | IntKind::UInt
            | IntKind::ULong
            | IntKind::ULLong
            | IntKind::ULong4 => 0,
            IntKind::Char | IntKind::SChar => -0x80,
            IntKind::Short => -0x8000,
            IntKind::Int | IntKind::Long4 => -0x8000_0000,
            IntKind::Long | IntKind::LLong => -0x8000_0000_0000_0000,
        }
    }

    /// The greatest value (C11 5.2.4.2.1).
    pub fn greatest(self) -> i128
        ensures { result ≡ greatest self }
    {
        match self {
            IntKind::Bool => 1,
            IntKind::Char | IntKind::SChar => 0x7f,
            IntKind::UChar => 0xff,
            IntKind::Short => 0x7fff,
            IntKind::UShort => 0xffff,
            IntKind::Int | IntKind::Long4 => 0x7fff_ffff,
            IntKind::UInt | IntKind::ULong4 => 0xffff_ffff,
            IntKind::Long | IntKind::LLong => 0x7fff_ffff_ffff_ffff,
            IntKind::ULong | IntKind::ULLong => 0xffff_ffff_ffff_ffff,
        }
    }

    /// Whether the number is a value of the kind.
    pub fn fits(self, v: i128) -> bool
        ensures { result ≡ fits self v }
    {
        self.least() <= v && v <= self.greatest()
    }

    /// Whether each value of the other kind is one of this kind.
    pub fn has_values_of(self, other: IntKind) -> bool
        ensures { result ≡ has_values_of self other }
    {
        self.least() <= other.least() && other.greatest() <= self.greatest()
    }

    /// The unsigned kind that corresponds to a signed one; an unsigned kind itself (C11 6.2.5p6).
    pub fn unsigned(self) -> IntKind
        ensures { result ≡ unsigned_of self }
    {
        match self {
            IntKind::Char | IntKind::SChar => IntKind::UChar,
            IntKind::Short => IntKind::UShort,
            IntKind::Int => IntKind::UInt,
            IntKind::Long => IntKind::ULong,
            IntKind::LLong => IntKind::ULLong,
            IntKind::Long4 => IntKind::ULong4,
            IntKind::Bool
            | IntKind::UChar
            | IntKind::UShort
            | IntKind::UInt
            | IntKind::ULong
            | IntKind::ULLong
            | IntKind::ULong4 => self,
        }
    }

    /// The kind to which the integer promotions convert (C11 6.3.1.1p2).
    pub fn promoted(self) -> IntKind
        ensures { result ≡ promoted self }
    {
        if self.rank() > IntKind::Int.rank() {
            self
        } else if IntKind::Int.has_values_of(self) {
            IntKind::Int
        } else {
            IntKind::UInt
        }
    }

    /// The kind to which the usual arithmetic conversions convert operands of these kinds (C11 6.3.1.8p1).
    pub fn common(self, other: IntKind) -> IntKind
        ensures { result ≡ common self other }
    {
        common_of_promoted(self.promoted(), other.promoted())
    }

    /// The words that name the type, as a type name of C (C11 6.7.2p2).
    pub fn words(self) -> &'static str
        ensures { result.now ≡ words_of self }
    {
        match self {
            IntKind::Bool => "_Bool",
            IntKind::Char => "char",
            IntKind::SChar => "signed char",
            IntKind::UChar => "unsigned char",
            IntKind::Short => "short",
            IntKind::UShort => "unsigned short",
            IntKind::Int => "int",
            IntKind::UInt => "unsigned int",
            IntKind::Long | IntKind::Long4 => "long",
            IntKind::ULong | IntKind::ULong4 => "unsigned long",
            IntKind::LLong => "long long",
            IntKind::ULLong => "unsigned long long",
        }
    }

    /// The suffix of a constant of the kind (C11 6.4.4.1): none for int and what is narrower.
    pub fn suffix(self) -> &'static str
        ensures { result.now ≡ suffix_of self }
    {
        match self {
            IntKind::UInt => "U",
            IntKind::Long | IntKind::Long4 => "L",
            IntKind::ULong | IntKind::ULong4 => "UL",
            IntKind::LLong => "LL",
            IntKind::ULLong => "ULL",
            IntKind::Bool
            | IntKind::Char
            | IntKind::SChar
            | IntKind::UChar
            | IntKind::Short
            | IntKind::UShort
            | IntKind::Int => "",
        }
    }

    /// Whether the data model has the kind: of the two kinds of `long`, and of `unsigned long`, each model has one (own).
    pub fn is_of(self, abi: Abi) -> bool
        ensures { result ≡ has_kind abi self }
    {
        match self {
            IntKind::Long | IntKind::ULong => abi.is_lp64(),
            IntKind::Long4 | IntKind::ULong4 => abi.is_ilp32(),
            IntKind::Bool
            | IntKind::Char
            | IntKind::SChar
            | IntKind::UChar
            | IntKind::Short
            | IntKind::UShort
            | IntKind::Int
            | IntKind::UInt
            | IntKind::LLong
            | IntKind::ULLong => true,
        }
    }
}

/// The common kind of an unsigned and a signed kind (C11 6.3.1.8p1).
fn mixed(unsigned: IntKind, signed: IntKind) -> IntKind
    ensures { result ≡ mixed unsigned signed }
{
    if unsigned.rank() >= signed.rank() {
        unsigned
    } else if signed.has_values_of(unsigned) {
        signed
    } else {
        signed.unsigned()
    }
}

/// The common kind of two kinds that are promoted (C11 6.3.1.8p1).
fn common_of_promoted(a: IntKind, b: IntKind) -> IntKind
    ensures { result ≡ common_of_promoted a b }
{
    match (a.is_signed(), b.is_signed()) {
        (false, true) => mixed(a, b),
        (true, false) => mixed(b, a),
        (true, true) | (false, false) => { if a.rank() >= b.rank() { a } else { b } }
    }
}

/// The data models (own): the sizes of the types and the kinds that there are.
#[derive(Clone, Copy, PartialEq, Eq)]
pub enum Abi {
    /// long and pointers have 8 bytes, int has 4.
    Lp64,
    /// int, long and pointers have 4 bytes.
    Ilp32,
}

/// What holds for all units that are linked into one program (own).
#[derive(Clone, Copy)]
pub struct Mode {
    /// Whether an object may have a tentative definition in several of them (C11 6.9.2p2, J.5.11). It does not count
    /// yet: runs are the same with it and without it.
    pub common: bool,
    /// Their data model.
    pub abi: Abi,
}

impl Abi {
    /// Whether long and pointers have 8 bytes.
    fn is_lp64(self) -> bool
        ensures { result ≡ is_lp64 self }
    {
        match self {
            Abi::Lp64 => true,
            Abi::Ilp32 => false,
        }
    }

    /// Whether long and pointers have 4 bytes.
    fn is_ilp32(self) -> bool
        ensures { result ≡ is_ilp32 self }
    {
        match self {
            Abi::Lp64 => false,
            Abi::Ilp32 => true,
        }
    }

    /// The kind of `long`, and of `ptrdiff_t` (C11 7.19).
    pub fn long(self) -> IntKind
        ensures { result ≡ long_of self }
    {
        match self {
            Abi::Lp64 => IntKind::Long,
            Abi::Ilp32 => IntKind::Long4,
        }
    }

    /// The kind of `unsigned long`, and of `size_t` (C11 7.19).
    pub fn ulong(self) -> IntKind
        ensures { result ≡ ulong_of self }
    {
        match self {
            Abi::Lp64 => IntKind::ULong,
            Abi::Ilp32 => IntKind::ULong4,
        }
    }

    /// The kind of this model that is written with the words and the suffix of a kind of LP64 (own).
    pub fn kind(self, written: IntKind) -> IntKind
        ensures { result ≡ kind_in self written }
    {
        match written {
            IntKind::Long => self.long(),
            IntKind::ULong => self.ulong(),
            IntKind::Bool
            | IntKind::Char
            | IntKind::SChar
            | IntKind::UChar
            | IntKind::Short
            | IntKind::UShort
            | IntKind::Int
            | IntKind::UInt
            | IntKind::LLong
            | IntKind::ULLong
            | IntKind::Long4
            | IntKind::ULong4 => written,
        }
    }

    /// The size of a pointer in bytes.
    pub fn pointer_size(self) -> u32
        ensures { result ≡ pointer_size_of self }
    {
        match self {
            Abi::Lp64 => 8,
            Abi::Ilp32 => 4,
        }
    }
}
