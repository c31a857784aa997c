ghost use Rattle.std.specs.Prelude.{◌≡◌, Bool, not, ◌&&◌, ◌||◌, map};
ghost use Rattle.c_tree.specs.View.{specifier_of, specifiers_of, members_of, enumerators_of, declarator_of, bound_of, parameters_of, items_of};
ghost use Rattle.c_tree.specs.UnitView.{declaration_of};
ghost use Rattle.c_tree.specs.Levels.{is_assign_op as assigns, is_specifier_qualifier as qualifies, are_specifier_qualifiers as all_qualify, is_absent as is_left_out, is_direct as stands_direct, declares as has_name, is_bound_of as bounds, has_names as lists_names, has_other_names as lists_other_names, is_defined_by as defines, has_some, has_specifier as some_specifier, has_member as some_member, has_enumerator as some_enumerator, has_parameter as some_parameter, has_item as some_item};
ghost use Rattle.c_tree.specs.Told.{told};

use c_tree::{
    ArrayBound, Declaration, Declarator, Enumerator, InitItem, MemberDeclaration, Parameter,
    Specifier, declares, has_own_names, is_absent, is_underived,
};
use cil_base::{BinOp, Bytes};

/// Whether the operator makes an assignment: none, or one that a compound assignment has (C11 6.5.16p1).
#[tactic(auto, using(c_tree::proofs::ToldLemmas::told_is))]
pub fn is_assign_op(op: Option<BinOp>) -> bool
    ensures is { result ≡ assigns op }
    ensures told { result ≡ told (assigns op) }
{
    match op {
        None => true,
        Some(BinOp::Lt) | Some(BinOp::Gt) | Some(BinOp::Le) => false,
        Some(BinOp::Ge) | Some(BinOp::Eq) | Some(BinOp::Ne) => false,
        Some(_) => true,
    }
}

/// Whether a specifier can stand in a type name and among members: no storage class and no function specifier (C11 6.7.2.1).
pub fn is_specifier_qualifier(s: &Specifier) -> bool
    ensures { result ≡ qualifies (specifier_of s.now) }
{
    match s {
        Specifier::Storage(..) | Specifier::Function(..) => false,
        Specifier::Basic(..)
        | Specifier::Qualifier(..)
        | Specifier::TypedefName(..)
        | Specifier::Tag(..)
        | Specifier::Members(..)
        | Specifier::Enumerators(..) => true,
    }
}

/// Whether the declarator is direct (C11 6.7.6): no pointer without parentheses.
#[tactic(auto, using(c_tree::proofs::ToldLemmas::told_is))]
pub fn is_direct(d: &Declarator) -> bool
    ensures is { result ≡ stands_direct (declarator_of d.now) }
    ensures told { result ≡ told (stands_direct (declarator_of d.now)) }
{
    match d {
        Declarator::Pointer(..) => false,
        Declarator::Name(..)
        | Declarator::Absent(_)
        | Declarator::Parentheses(..)
        | Declarator::Array(..)
        | Declarator::Function(..)
        | Declarator::Identifiers(..) => true,
    }
}

/// Whether a bound can stand in a declarator, which declares an identifier or not (C11 6.7.6.2, 6.7.7).
#[tactic(auto, using(c_tree::proofs::ToldLemmas::told_is))]
pub fn is_bound_of(is_named: bool, b: &ArrayBound) -> bool
    ensures is { result ≡ bounds is_named (bound_of b.now) }
    ensures told { result ≡ told (bounds is_named (bound_of b.now)) }
{
    match b {
        ArrayBound::Unspecified(..) | ArrayBound::Size(..) | ArrayBound::StaticSize(..) => true,
        ArrayBound::Star(_, qualifiers) => is_named || qualifiers.is_empty(),
        ArrayBound::SizeStatic(_, qualifiers, _) => !qualifiers.is_empty(),
    }
}

/// Whether a derivation has an identifier list that is not empty (C11 6.7.6.3p3).
pub fn has_names(d: &Declarator) -> bool
    ensures { result ≡ lists_names (declarator_of d.now) }
{
    match d {
        Declarator::Name(..) | Declarator::Absent(_) => false,
        Declarator::Parentheses(_, inner) => has_names(inner),
        Declarator::Pointer(_, _, inner) => has_names(inner),
        Declarator::Array(_, inner, _) => has_names(inner),
        Declarator::Function(_, inner, _, _) => has_names(inner),
        Declarator::Identifiers(_, inner, names) => !names.is_empty() || has_names(inner),
    }
}

/// Whether another derivation has an identifier list that is not empty.
pub fn has_other_names(d: &Declarator) -> bool
    ensures { result ≡ lists_other_names (declarator_of d.now) }
{
    match d {
        Declarator::Name(..) | Declarator::Absent(_) => false,
        Declarator::Parentheses(_, inner) => has_other_names(inner),
        Declarator::Pointer(_, _, inner) => has_other_names(inner),
        Declarator::Array(_, inner, _) => has_other_names(inner),
        Declarator::Function(_, inner, _, _) => has_other_names(inner),
        Declarator::Identifiers(_, inner, names) => {
            (!is_underived(inner) && !names.is_empty()) || has_other_names(inner)
        }
    }
}

/// Whether both hold.
#[tactic(auto, using(c_tree::proofs::ToldLemmas::told_both))]
pub fn both(a: bool, b: bool) -> bool
    ensures is { result ≡ (a && b) }
    ensures told { (p q : Bool) → a ≡ told p → b ≡ told q → result ≡ told (p && q) }
{
    a & b
}

/// Whether all of some specifiers can stand in a type name and among members.
#[tactic(auto, using(c_tree::proofs::ToldLemmas::all_start, c_tree::proofs::ToldLemmas::all_step_is, c_tree::proofs::ToldLemmas::all_end, c_tree::proofs::ToldLemmas::all_qualifiers))]
pub fn are_specifier_qualifiers(xs: &[Specifier]) -> bool
    ensures { result ≡ told (all_qualify (specifiers_of xs.now)) }
{
    let mut all = true;
    for x in xs {
        all = both(all, is_specifier_qualifier(x));
    }
    all
}

/// Whether a declarator in parentheses has a token.
#[tactic(auto, using(c_tree::proofs::ToldLemmas::told_is))]
pub fn is_present(d: &Declarator) -> bool
    ensures { result ≡ told (not (is_left_out (declarator_of d.now))) }
{
    !is_absent(d)
}

/// Whether no derivation has an identifier list that is not empty.
#[tactic(auto, using(c_tree::proofs::ToldLemmas::told_is))]
pub fn lists_nothing(d: &Declarator) -> bool
    ensures { result ≡ told (not (lists_names (declarator_of d.now))) }
{
    !has_names(d)
}

/// Whether a declarator can stand among members and in a declaration (C11 6.7.6): it declares an identifier and has no
/// identifier list.
#[tactic(auto, using(c_tree::proofs::ToldLemmas::told_is))]
pub fn is_plain(d: &Declarator) -> bool
    ensures { result ≡ told (has_name (declarator_of d.now) && not (lists_names (declarator_of d.now))) }
{
    declares(d) & !has_names(d)
}

/// Whether a declarator can stand before the colon of a bit-field (C11 6.7.2.1): such a declarator, or none.
#[tactic(auto, using(c_tree::proofs::ToldLemmas::told_is))]
pub fn is_before_width(d: &Declarator) -> bool
    ensures { result ≡ told (is_left_out (declarator_of d.now) || (has_name (declarator_of d.now) && not (lists_names (declarator_of d.now)))) }
{
    is_absent(d) | (declares(d) & !has_names(d))
}

/// Whether a declarator can stand in a type name (C11 6.7.7): it declares no identifier and has no identifier list.
#[tactic(auto, using(c_tree::proofs::ToldLemmas::told_is))]
pub fn is_abstract(d: &Declarator) -> bool
    ensures { result ≡ told (not (has_name (declarator_of d.now) || lists_names (declarator_of d.now))) }
{
    !(declares(d) | has_names(d))
}

/// Whether the declarator of a function's definition can stand before these declarations (C11 6.7.6.3p3, 6.9.1p5, p6).
#[tactic(auto, using(c_tree::proofs::ToldLemmas::defined_by))]
pub fn is_defined_by(d: &Declarator, declarations: &[Declaration]) -> bool
    ensures { result ≡ told (defines (declarator_of d.now) (map declaration_of declarations.now)) }
{
    !has_other_names(d) & (has_own_names(d) | declarations.is_empty())
}

/// Whether there is a string literal.
#[tactic(auto, using(c_tree::proofs::ToldLemmas::told_is))]
pub fn has_literal(texts: &Vec<Bytes>) -> bool
    ensures { result ≡ told (has_some texts.now.items) }
{
    !texts.is_empty()
}

/// Whether there is a specifier.
#[tactic(auto, using(c_tree::proofs::ToldLemmas::some_specifiers))]
pub fn has_specifier(xs: &[Specifier]) -> bool
    ensures { result ≡ told (some_specifier (specifiers_of xs.now)) }
{
    !xs.is_empty()
}

/// Whether there is a declaration among members.
#[tactic(auto, using(c_tree::proofs::ToldLemmas::some_members))]
pub fn has_member(xs: &[MemberDeclaration]) -> bool
    ensures { result ≡ told (some_member (members_of xs.now)) }
{
    !xs.is_empty()
}

/// Whether there is an enumerator.
#[tactic(auto, using(c_tree::proofs::ToldLemmas::some_enumerators))]
pub fn has_enumerator(xs: &[Enumerator]) -> bool
    ensures { result ≡ told (some_enumerator (enumerators_of xs.now)) }
{
    !xs.is_empty()
}

/// Whether there is a parameter.
#[tactic(auto, using(c_tree::proofs::ToldLemmas::some_parameters))]
pub fn has_parameter(xs: &[Parameter]) -> bool
    ensures { result ≡ told (some_parameter (parameters_of xs.now)) }
{
    !xs.is_empty()
}

/// Whether there is an initialiser.
#[tactic(auto, using(c_tree::proofs::ToldLemmas::some_items))]
pub fn has_item(xs: &[InitItem]) -> bool
    ensures { result ≡ told (some_item (items_of xs.now)) }
{
    !xs.is_empty()
}
