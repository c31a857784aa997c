ghost use Rattle.std.specs.Prelude.{IfErr};
ghost use Rattle.decl_types.specs.Refusals.{IsRefusal, of_specifiers};

use crate::basics::{BasicMeaning, Basics, NO_BASICS};
use crate::stops::bad;
use c_tree::{Qualifier, Specifier, StructKind, TagKind};
use cil_base::{Abi, Code, NameId, RuleStop};
use type_graph::{AggKind, Quals};

/// A type specifier that is no keyword.
#[derive(Clone, Copy)]
pub(crate) enum Named {
    Typedef(NameId),
    /// A tag without a body.
    Tag(AggKind, NameId),
    /// A body, with its tag where it has one.
    Body(AggKind, Option<NameId>),
}

/// What type specifiers name.
#[derive(Clone, Copy)]
pub(crate) enum Meaning {
    Basic(BasicMeaning),
    Named(Named),
}

/// The type specifiers and qualifiers so far.
#[derive(Clone, Copy)]
struct Sorted {
    basics: Basics,
    named: Option<Named>,
    quals: Quals,
}

/// What specifiers say of a type.
#[derive(Clone, Copy)]
pub(crate) struct Spelled {
    pub(crate) meaning: Meaning,
    pub(crate) quals: Quals,
}

/// The kind of a tag.
fn kind_of_tag(kind: TagKind) -> AggKind {
    match kind {
        TagKind::Struct => AggKind::Struct,
        TagKind::Union => AggKind::Union,
        TagKind::Enum => AggKind::Enum,
    }
}

/// The kind of a body with members.
fn kind_of_body(kind: StructKind) -> AggKind {
    match kind {
        StructKind::Struct => AggKind::Struct,
        StructKind::Union => AggKind::Union,
    }
}

/// What a type specifier names, where it is no keyword.
fn named_by(s: &Specifier) -> Option<Named> {
    match s {
        Specifier::TypedefName(_, n) => Some(Named::Typedef(*n)),
        Specifier::Tag(_, kind, n) => Some(Named::Tag(kind_of_tag(*kind), *n)),
        Specifier::Members(_, kind, tag, _) => Some(Named::Body(kind_of_body(*kind), *tag)),
        Specifier::Enumerators(_, tag, _, _) => Some(Named::Body(AggKind::Enum, *tag)),
        Specifier::Storage(..)
        | Specifier::Basic(..)
        | Specifier::Qualifier(..)
        | Specifier::Function(..) => None,
    }
}

/// With one qualifier more (C11 6.7.3p5).
fn with_qualifier(q: Quals, one: Qualifier) -> Quals {
    match one {
        Qualifier::Const => Quals {
            constant: true,
            restricted: q.restricted,
        },
        Qualifier::Restrict => Quals {
            constant: q.constant,
            restricted: true,
        },
    }
}

/// The qualifiers of a list.
pub fn qualifiers(list: &[Qualifier]) -> Quals {
    let mut q = Quals {
        constant: false,
        restricted: false,
    };
    for one in list {
        q = with_qualifier(q, *one);
    }
    q
}

impl Sorted {
    /// With a type specifier that is no keyword, where there is none.
    fn with_named(self, named: Named) -> Result<Sorted, RuleStop>
        ensures { IfErr result (IsRefusal of_specifiers) }
    {
        if self.named.is_some() {
            return Err(bad(Code::Specifiers));
        }
        Ok(Sorted {
            basics: self.basics,
            named: Some(named),
            quals: self.quals,
        })
    }

    /// With one specifier more.
    fn with(self, s: &Specifier) -> Result<Sorted, RuleStop>
        ensures { IfErr result (IsRefusal of_specifiers) }
    {
        if let Some(named) = named_by(s) {
            return self.with_named(named);
        }
        match s {
            Specifier::Basic(_, word) => match self.basics.with(*word) {
                None => Err(bad(Code::Specifiers)),
                Some(basics) => Ok(Sorted {
                    basics,
                    named: self.named,
                    quals: self.quals,
                }),
            },
            Specifier::Qualifier(_, one) => Ok(Sorted {
                basics: self.basics,
                named: self.named,
                quals: with_qualifier(self.quals, *one),
            }),
            Specifier::Storage(..)
            | Specifier::Function(..)
            | Specifier::TypedefName(..)
            | Specifier::Tag(..)
            | Specifier::Members(..)
            | Specifier::Enumerators(..) => Ok(self),
        }
    }

    /// What they name together in the data model (C11 6.7.2p2).
    fn meaning(self, abi: Abi) -> Option<Meaning> {
        match self.named {
            None => match self.basics.meaning(abi) {
                None => None,
                Some(basic) => Some(Meaning::Basic(basic)),
            },
            Some(named) => {
                if self.basics.is_empty() {
                    Some(Meaning::Named(named))
                } else {
                    None
                }
            }
        }
    }
}

/// What specifiers say of a type, in a data model. `Specifiers` where they name none (C11 6.7.2p2).
pub(crate) fn spelled_by(s: &[Specifier], abi: Abi) -> Result<Spelled, RuleStop>
    ensures { IfErr result (IsRefusal of_specifiers) }
{
    let mut sorted = Sorted {
        basics: NO_BASICS,
        named: None,
        quals: Quals {
            constant: false,
            restricted: false,
        },
    };
    for specifier in s {
        sorted = sorted.with(specifier)?;
    }
    match sorted.meaning(abi) {
        None => Err(bad(Code::Specifiers)),
        Some(meaning) => Ok(Spelled {
            meaning,
            quals: sorted.quals,
        }),
    }
}
