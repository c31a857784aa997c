ghost use Rattle.std.specs.Prelude.{◌≡◌, ◌||◌};
ghost use Rattle.c_tree.specs.View.{specifier_of, specifiers_of, declarator_of};
ghost use Rattle.c_tree.specs.Scoped.{names_type, has_type_specifier, is_typedef_word, is_typedef, has_typedef, name_of};

use c_tree::{Declarator, Specifier, StorageClass};
use cil_base::NameId;

/// The identifier that a declarator declares (C11 6.7.6).
pub fn name_of(d: &Declarator) -> Option<NameId>
    ensures { result ≡ name_of (declarator_of d.now) }
{
    match d {
        Declarator::Name(_, n) => Some(*n),
        Declarator::Absent(_) => None,
        Declarator::Parentheses(_, d) => name_of(d),
        Declarator::Pointer(_, _, d) => name_of(d),
        Declarator::Array(_, d, _) => name_of(d),
        Declarator::Function(_, d, _, _) => name_of(d),
        Declarator::Identifiers(_, d, _) => name_of(d),
    }
}

/// Whether a specifier is a type specifier (C11 6.7.2).
pub(crate) fn names_type(x: &Specifier) -> bool
    ensures { result ≡ names_type (specifier_of x.now) }
{
    match x {
        Specifier::Storage(..) => false,
        Specifier::Basic(..) => true,
        Specifier::Qualifier(..) => false,
        Specifier::Function(..) => false,
        Specifier::TypedefName(..) => true,
        Specifier::Tag(..) => true,
        Specifier::Members(..) => true,
        Specifier::Enumerators(..) => true,
    }
}

fn is_typedef_word(word: StorageClass) -> bool
    ensures { result ≡ is_typedef_word word }
{
    match word {
        StorageClass::Typedef => true,
        StorageClass::Extern => false,
        StorageClass::Static => false,
        StorageClass::Auto => false,
        StorageClass::Register => false,
    }
}

/// Whether a specifier is `typedef` (C11 6.7.1).
fn is_typedef(x: &Specifier) -> bool
    ensures { result ≡ is_typedef (specifier_of x.now) }
{
    match x {
        Specifier::Storage(_, word) => is_typedef_word(*word),
        Specifier::Basic(..) => false,
        Specifier::Qualifier(..) => false,
        Specifier::Function(..) => false,
        Specifier::TypedefName(..) => false,
        Specifier::Tag(..) => false,
        Specifier::Members(..) => false,
        Specifier::Enumerators(..) => false,
    }
}

pub(crate) fn either(a: bool, b: bool) -> bool
    ensures { result ≡ (a || b) }
{
    a || b
}

/// Whether a type specifier is among some (C11 6.7.2).
#[tactic(auto, using(crate::proofs::SomeLemmas::some_start, crate::proofs::SomeLemmas::some_step, crate::proofs::SomeLemmas::some_end, crate::proofs::SomeLemmas::some_typed_of))]
pub(crate) fn has_type_specifier(xs: &[Specifier]) -> bool
    ensures { result ≡ has_type_specifier (specifiers_of xs.now) }
{
    let mut some = false;
    for x in xs {
        some = either(some, names_type(x));
    }
    some
}

/// Whether `typedef` is among some specifiers (C11 6.7.1).
#[tactic(auto, using(crate::proofs::SomeLemmas::some_start, crate::proofs::SomeLemmas::some_step, crate::proofs::SomeLemmas::some_end, crate::proofs::SomeLemmas::some_typedef_of))]
pub fn has_typedef(xs: &[Specifier]) -> bool
    ensures { result ≡ has_typedef (specifiers_of xs.now) }
{
    let mut some = false;
    for x in xs {
        some = either(some, is_typedef(x));
    }
    some
}
