use c_tree::BasicType;
use cil_base::{Abi, IntKind};

/// The keyword that says what kind of type it is.
#[derive(Clone, Copy)]
enum Base {
    Void,
    Bool,
    Char,
    Int,
}

/// The keywords that say how long an integer type is.
#[derive(Clone, Copy, PartialEq, Eq)]
enum Length {
    Plain,
    Short,
    Long,
    LongLong,
}

/// The keyword that says whether an integer type has a sign.
#[derive(Clone, Copy, PartialEq, Eq)]
enum Sign {
    Unsaid,
    Signed,
    Unsigned,
}

/// The type specifiers that are keywords, in any order (C11 6.7.2p2).
#[derive(Clone, Copy)]
pub(crate) struct Basics {
    base: Option<Base>,
    length: Length,
    sign: Sign,
}

/// The type that they name.
#[derive(Clone, Copy)]
pub(crate) enum BasicMeaning {
    Void,
    Int(IntKind),
}

/// No keyword yet.
pub(crate) const NO_BASICS: Basics = Basics {
    base: None,
    length: Length::Plain,
    sign: Sign::Unsaid,
};

impl Basics {
    /// Whether there is no keyword.
    pub(crate) fn is_empty(self) -> bool {
        self.base.is_none() && self.length == Length::Plain && self.sign == Sign::Unsaid
    }

    /// With one keyword more; None where no type has them.
    pub(crate) fn with(self, word: BasicType) -> Option<Basics> {
        match word {
            BasicType::Void => self.with_base(Base::Void),
            BasicType::Char => self.with_base(Base::Char),
            BasicType::Int => self.with_base(Base::Int),
            BasicType::Bool => self.with_base(Base::Bool),
            BasicType::Short => self.with_length(Length::Plain, Length::Short),
            BasicType::Long => self.with_long(),
            BasicType::Signed => self.with_sign(Sign::Signed),
            BasicType::Unsigned => self.with_sign(Sign::Unsigned),
        }
    }

    /// With a base, where there is none.
    fn with_base(self, base: Base) -> Option<Basics> {
        if self.base.is_some() {
            return None;
        }
        Some(Basics {
            base: Some(base),
            length: self.length,
            sign: self.sign,
        })
    }

    /// With another length, where it has this one.
    fn with_length(self, from: Length, to: Length) -> Option<Basics> {
        if self.length != from {
            return None;
        }
        Some(Basics {
            base: self.base,
            length: to,
            sign: self.sign,
        })
    }

    /// With `long`, which may stand twice.
    fn with_long(self) -> Option<Basics> {
        if self.length == Length::Long {
            return self.with_length(Length::Long, Length::LongLong);
        }
        self.with_length(Length::Plain, Length::Long)
    }

    /// With a sign, where there is none.
    fn with_sign(self, sign: Sign) -> Option<Basics> {
        if self.sign != Sign::Unsaid {
            return None;
        }
        Some(Basics {
            base: self.base,
            length: self.length,
            sign,
        })
    }

    /// The type that the keywords name in the data model (C11 6.7.2p2); None where they name none.
    pub(crate) fn meaning(self, abi: Abi) -> Option<BasicMeaning> {
        match self.base {
            Some(Base::Void) => self.unadorned(BasicMeaning::Void),
            Some(Base::Bool) => self.unadorned(BasicMeaning::Int(IntKind::Bool)),
            Some(Base::Char) => self.character(),
            Some(Base::Int) => Some(BasicMeaning::Int(self.integer(abi))),
            None => {
                if self.is_empty() {
                    return None;
                }
                Some(BasicMeaning::Int(self.integer(abi)))
            }
        }
    }

    /// A type that takes no length and no sign.
    fn unadorned(self, meaning: BasicMeaning) -> Option<BasicMeaning> {
        if self.length == Length::Plain && self.sign == Sign::Unsaid {
            Some(meaning)
        } else {
            None
        }
    }

    /// A character type (C11 6.2.5p15).
    fn character(self) -> Option<BasicMeaning> {
        if self.length != Length::Plain {
            return None;
        }
        Some(BasicMeaning::Int(match self.sign {
            Sign::Unsaid => IntKind::Char,
            Sign::Signed => IntKind::SChar,
            Sign::Unsigned => IntKind::UChar,
        }))
    }

    /// Another integer type (C11 6.2.5p4, p6).
    fn integer(self, abi: Abi) -> IntKind {
        let signed = match self.length {
            Length::Plain => IntKind::Int,
            Length::Short => IntKind::Short,
            Length::Long => abi.long(),
            Length::LongLong => IntKind::LLong,
        };
        match self.sign {
            Sign::Unsaid | Sign::Signed => signed,
            Sign::Unsigned => signed.unsigned(),
        }
    }
}
