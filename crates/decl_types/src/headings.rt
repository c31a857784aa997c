ghost use Rattle.std.specs.Prelude.{IfErr};
ghost use Rattle.decl_types.specs.Refusals.{IsRefusal, of_heading};

use crate::stops::bad;
use c_tree::{FunctionSpecifier, Specifier, StorageClass};
use cil_base::{Code, RuleStop};

/// Where a declaration stands. It decides which storage classes are allowed.
#[derive(Clone, Copy)]
pub enum Position {
    /// A declaration outside functions: no `auto` and no `register` (C11 6.9p2).
    File,
    /// A declaration in a block.
    Block,
    /// The declaration of a for statement: `auto` and `register` alone (6.8.5p3).
    ForStart,
    /// A parameter: `register` alone (6.7.6.3p2).
    Parameter,
    /// A function definition: `extern` and `static` alone (6.9.1p4).
    Definition,
}

/// Whether the function specifier `inline` stands among specifiers (C11 6.7.4).
#[derive(Clone, Copy, PartialEq, Eq)]
pub enum Inline {
    No,
    Yes,
}

/// What specifiers say beside the type.
#[derive(Clone, Copy)]
pub struct Heading {
    /// The storage class, where there is one.
    pub storage: Option<StorageClass>,
    pub inline: Inline,
}

/// A heading with one specifier more; at most one storage class is allowed (C11 6.7.1p2).
fn with(h: Heading, s: &Specifier) -> Result<Heading, RuleStop>
    ensures { IfErr result (IsRefusal of_heading) }
{
    match s {
        Specifier::Storage(_, class) => {
            if h.storage.is_some() {
                return Err(bad(Code::Specifiers));
            }
            Ok(Heading {
                storage: Some(*class),
                inline: h.inline,
            })
        }
        Specifier::Function(_, FunctionSpecifier::Inline) => Ok(Heading {
            storage: h.storage,
            inline: Inline::Yes,
        }),
        Specifier::Function(_, FunctionSpecifier::Noreturn)
        | Specifier::Basic(..)
        | Specifier::Qualifier(..)
        | Specifier::TypedefName(..)
        | Specifier::Tag(..)
        | Specifier::Members(..)
        | Specifier::Enumerators(..) => Ok(h),
    }
}

/// Whether a storage class is allowed at a place.
fn is_allowed(class: StorageClass, at: Position) -> bool {
    match at {
        Position::File => match class {
            StorageClass::Typedef | StorageClass::Extern | StorageClass::Static => true,
            StorageClass::Auto | StorageClass::Register => false,
        },
        Position::Block => true,
        Position::ForStart => match class {
            StorageClass::Auto | StorageClass::Register => true,
            StorageClass::Typedef | StorageClass::Extern | StorageClass::Static => false,
        },
        Position::Parameter => class == StorageClass::Register,
        Position::Definition => match class {
            StorageClass::Extern | StorageClass::Static => true,
            StorageClass::Typedef | StorageClass::Auto | StorageClass::Register => false,
        },
    }
}

/// What specifiers say beside the type. `Specifiers` where there are two storage classes, or one that is not allowed there; its place is the first
/// token of the specifiers.
pub fn heading_of(s: &[Specifier], at: Position) -> Result<Heading, RuleStop>
    ensures { IfErr result (IsRefusal of_heading) }
{
    let mut h = Heading {
        storage: None,
        inline: Inline::No,
    };
    for specifier in s {
        h = with(h, specifier)?;
    }
    match h.storage {
        None => Ok(h),
        Some(class) => {
            if is_allowed(class, at) {
                Ok(h)
            } else {
                Err(bad(Code::Specifiers))
            }
        }
    }
}
