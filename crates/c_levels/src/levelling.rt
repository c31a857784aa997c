ghost use Rattle.std.specs.Prelude.{◌≡◌, ◌&&◌};
ghost use Rattle.c_tree.specs.View.{expr_of, specifier_of, specifiers_of, member_of, member_declarator_of, enumerator_of, declarator_of, bound_of, parameter_of, init_of, item_of, designator_of, exprs_of, members_of, member_declarators_of, enumerators_of, parameters_of, items_of, designators_of};
ghost use Rattle.c_tree.specs.Levels.{is_type_name, declares as has_name, levelled, levelled_arguments, levelled_specifier, levelled_specifiers, levelled_member, levelled_members, levelled_member_declarator, levelled_member_declarators, levelled_enumerator, levelled_enumerators, levelled_declarator, levelled_bound, levelled_parameter, levelled_parameters, levelled_init, levelled_item, levelled_items, levelled_designator, levelled_designators};
ghost use Rattle.c_tree.specs.Levels.{is_within as stands_within};
ghost use Rattle.c_tree.specs.Told.{told};

use crate::rules::{
    are_specifier_qualifiers, both, has_enumerator, has_item, has_literal, has_member,
    has_parameter, has_specifier, is_abstract, is_assign_op, is_before_width, is_bound_of,
    is_direct, is_plain, is_present, lists_nothing,
};
use c_tree::{
    ArrayBound, Declarator, Designator, Enumerator, Expr, Init, InitItem, Level, MemberDeclaration,
    MemberDeclarator, Parameter, Specifier, TypeName, binary_level, declares, is_within,
    logical_level, tighter,
};

/// Whether each part of an expression is what its production asks.
#[cycle(levelling)]
#[tactic(auto, using(c_tree::proofs::Views::at_call, c_tree::proofs::Views::at_compound_literal, c_tree::proofs::Views::at_sizeof, c_tree::proofs::Views::at_alignof, c_tree::proofs::Views::at_cast, c_tree::proofs::ToldLemmas::told_true))]
pub fn expr_fits(x: &Expr) -> bool
    ensures { result ≡ told (levelled (expr_of x.now)) }
{
    match x {
        Expr::Name(..) | Expr::Integer(..) | Expr::Character(..) => true,
        Expr::Literals(_, texts) => has_literal(texts),
        Expr::Parentheses(_, e) => expr_fits(e),
        Expr::Index(_, e, i) => both(
            is_within(Level::Postfix, e),
            both(expr_fits(e), expr_fits(i)),
        ),
        Expr::Call(_, e, es) => both(
            is_within(Level::Postfix, e),
            both(expr_fits(e), arguments_fit(es)),
        ),
        Expr::Member(_, e, _) => operand_fits(Level::Postfix, e),
        Expr::Arrow(_, e, _) => operand_fits(Level::Postfix, e),
        Expr::Postfix(_, e, _) => operand_fits(Level::Postfix, e),
        Expr::CompoundLiteral(_, t, items, _) => {
            both(type_fits(t), both(has_item(items), items_fit(items)))
        }
        Expr::Prefix(_, _, e) => operand_fits(Level::Unary, e),
        Expr::Unary(_, _, e) => operand_fits(Level::Cast, e),
        Expr::SizeofExpr(_, e) => operand_fits(Level::Unary, e),
        Expr::SizeofType(_, t) => type_fits(t),
        Expr::AlignofType(_, t) => type_fits(t),
        Expr::Cast(_, t, e) => both(type_fits(t), operand_fits(Level::Cast, e)),
        Expr::Binary(_, op, l, r) => {
            let level = binary_level(*op);
            both(operand_fits(level, l), operand_fits(tighter(level), r))
        }
        Expr::Logical(_, op, l, r) => {
            let level = logical_level(*op);
            both(operand_fits(level, l), operand_fits(tighter(level), r))
        }
        Expr::Conditional(_, c, a, b) => both(
            operand_fits(Level::LogicalOr, c),
            both(expr_fits(a), operand_fits(Level::Conditional, b)),
        ),
        Expr::Assign(_, op, l, r) => both(
            both(is_assign_op(*op), operand_fits(Level::Unary, l)),
            operand_fits(Level::Assignment, r),
        ),
        Expr::Comma(_, l, r) => both(expr_fits(l), operand_fits(Level::Assignment, r)),
    }
}

/// Whether an expression can stand where one of that level is asked, and so do its parts.
#[cycle(levelling)]
pub fn operand_fits(level: Level, x: &Expr) -> bool
    ensures { result ≡ told (stands_within level (expr_of x.now) && levelled (expr_of x.now)) }
{
    both(is_within(level, x), expr_fits(x))
}

/// Whether the specifiers and the declarator make a type name (C11 6.7.7).
#[cycle(levelling)]
pub fn type_fits(x: &TypeName) -> bool
    ensures { result ≡ told (is_type_name (specifiers_of x.now.specifiers.items) (declarator_of x.now.declarator) && (levelled_specifiers (specifiers_of x.now.specifiers.items) && levelled_declarator (declarator_of x.now.declarator))) }
{
    let is_type = both(
        both(
            has_specifier(&x.specifiers),
            are_specifier_qualifiers(&x.specifiers),
        ),
        is_abstract(&x.declarator),
    );
    both(
        is_type,
        both(
            specifiers_fit(&x.specifiers),
            declarator_fits(&x.declarator),
        ),
    )
}

/// Whether each part of a specifier is what its production asks.
#[cycle(levelling)]
#[tactic(auto, using(c_tree::proofs::Views::at_struct, c_tree::proofs::Views::at_enum, c_tree::proofs::ToldLemmas::told_true))]
pub fn specifier_fits(x: &Specifier) -> bool
    ensures { result ≡ told (levelled_specifier (specifier_of x.now)) }
{
    match x {
        Specifier::Members(_, _, _, members) => both(has_member(members), members_fit(members)),
        Specifier::Enumerators(_, _, es, _) => both(has_enumerator(es), enumerators_fit(es)),
        Specifier::Storage(..) => true,
        Specifier::Basic(..) => true,
        Specifier::Qualifier(..) => true,
        Specifier::Function(..) => true,
        Specifier::TypedefName(..) => true,
        Specifier::Tag(..) => true,
    }
}

/// Whether each part of a declaration among members is what its production asks (C11 6.7.2.1).
#[cycle(levelling)]
#[tactic(auto, using(c_tree::proofs::Views::at_member))]
pub fn member_fits(x: &MemberDeclaration) -> bool
    ensures { result ≡ told (levelled_member (member_of x.now)) }
{
    match x {
        MemberDeclaration::Members(ss, ds) => both(
            both(
                has_specifier(ss),
                both(are_specifier_qualifiers(ss), specifiers_fit(ss)),
            ),
            member_declarators_fit(ds),
        ),
        MemberDeclaration::StaticAssert(a) => both(
            operand_fits(Level::Conditional, &a.condition),
            has_literal(&a.message),
        ),
    }
}

/// Whether each part of a member's declarator is what its production asks.
#[cycle(levelling)]
pub fn member_declarator_fits(x: &MemberDeclarator) -> bool
    ensures { result ≡ told (levelled_member_declarator (member_declarator_of x.now)) }
{
    match x {
        MemberDeclarator::Plain(d) => both(is_plain(d), declarator_fits(d)),
        MemberDeclarator::BitField(d, width) => both(
            both(is_before_width(d), declarator_fits(d)),
            operand_fits(Level::Conditional, width),
        ),
    }
}

/// Whether an enumerator's value is a constant expression.
#[cycle(levelling)]
#[tactic(auto, using(c_tree::proofs::ToldLemmas::told_true))]
pub fn enumerator_fits(x: &Enumerator) -> bool
    ensures { result ≡ told (levelled_enumerator (enumerator_of x.now)) }
{
    match &x.value {
        None => true,
        Some(e) => operand_fits(Level::Conditional, e),
    }
}

/// Whether each part of a declarator is what its production asks.
#[cycle(levelling)]
pub fn declarator_fits(x: &Declarator) -> bool
    ensures { result ≡ told (levelled_declarator (declarator_of x.now)) }
{
    derivation_fits(declares(x), x)
}

/// The same for a part of a declarator, where it is known whether it declares an identifier.
#[cycle(levelling)]
#[tactic(auto, using(c_tree::proofs::Views::at_function, c_tree::proofs::ToldLemmas::told_true))]
pub fn derivation_fits(is_named: bool, x: &Declarator) -> bool
    requires { is_named ≡ has_name (declarator_of x.now) }
    ensures { result ≡ told (levelled_declarator (declarator_of x.now)) }
{
    match x {
        Declarator::Name(..) | Declarator::Absent(_) => true,
        Declarator::Parentheses(_, d) => both(is_present(d), derivation_fits(is_named, d)),
        Declarator::Pointer(_, _, d) => derivation_fits(is_named, d),
        Declarator::Array(_, d, b) => both(
            both(is_direct(d), derivation_fits(is_named, d)),
            both(is_bound_of(is_named, b), bound_fits(b)),
        ),
        Declarator::Function(_, d, ps, _) => both(
            both(is_direct(d), derivation_fits(is_named, d)),
            both(has_parameter(ps), parameters_fit(ps)),
        ),
        Declarator::Identifiers(_, d, _) => both(is_direct(d), derivation_fits(is_named, d)),
    }
}

/// Whether the size of an array is an assignment expression (C11 6.7.6.2).
#[cycle(levelling)]
#[tactic(auto, using(c_tree::proofs::ToldLemmas::told_true))]
pub fn bound_fits(x: &ArrayBound) -> bool
    ensures { result ≡ told (levelled_bound (bound_of x.now)) }
{
    match x {
        ArrayBound::Unspecified(..) | ArrayBound::Star(..) => true,
        ArrayBound::Size(_, _, e) => operand_fits(Level::Assignment, e),
        ArrayBound::StaticSize(_, _, e) => operand_fits(Level::Assignment, e),
        ArrayBound::SizeStatic(_, _, e) => operand_fits(Level::Assignment, e),
    }
}

/// Whether each part of a parameter is what its production asks.
#[cycle(levelling)]
pub fn parameter_fits(x: &Parameter) -> bool
    ensures { result ≡ told (levelled_parameter (parameter_of x.now)) }
{
    both(
        both(has_specifier(&x.specifiers), specifiers_fit(&x.specifiers)),
        both(lists_nothing(&x.declarator), declarator_fits(&x.declarator)),
    )
}

/// Whether each part of an initialiser is what its production asks (C11 6.7.9).
#[cycle(levelling)]
#[tactic(auto, using(c_tree::proofs::Views::at_braces))]
pub fn init_fits(x: &Init) -> bool
    ensures { result ≡ told (levelled_init (init_of x.now)) }
{
    match x {
        Init::Expr(e) => operand_fits(Level::Assignment, e),
        Init::Braces(_, items, _) => both(has_item(items), items_fit(items)),
    }
}

/// Whether each part of an initialiser with its designators is what its production asks.
#[cycle(levelling)]
pub fn item_fits(x: &InitItem) -> bool
    ensures { result ≡ told (levelled_item (item_of x.now)) }
{
    both(designators_fit(&x.designators), init_fits(&x.init))
}

/// Whether the index of a designator is a constant expression.
#[cycle(levelling)]
#[tactic(auto, using(c_tree::proofs::ToldLemmas::told_true))]
pub fn designator_fits(x: &Designator) -> bool
    ensures { result ≡ told (levelled_designator (designator_of x.now)) }
{
    match x {
        Designator::Index(_, e) => operand_fits(Level::Conditional, e),
        Designator::Member(..) => true,
    }
}

/// Whether all of some are arguments: assignment expressions (C11 6.5.2).
#[cycle(levelling)]
#[tactic(auto, using(c_tree::proofs::ToldLemmas::all_start, c_tree::proofs::ToldLemmas::all_step, c_tree::proofs::ToldLemmas::all_end, c_tree::proofs::ToldLemmas::all_arguments))]
pub fn arguments_fit(xs: &[Expr]) -> bool
    ensures { result ≡ told (levelled_arguments (exprs_of xs.now)) }
{
    let mut all = true;
    for x in xs {
        all = both(all, operand_fits(Level::Assignment, x));
    }
    all
}

/// Whether each part of some is what its production asks.
#[cycle(levelling)]
#[tactic(auto, using(c_tree::proofs::ToldLemmas::all_start, c_tree::proofs::ToldLemmas::all_step, c_tree::proofs::ToldLemmas::all_end, c_tree::proofs::ToldLemmas::all_specifiers))]
pub fn specifiers_fit(xs: &[Specifier]) -> bool
    ensures { result ≡ told (levelled_specifiers (specifiers_of xs.now)) }
{
    let mut all = true;
    for x in xs {
        all = both(all, specifier_fits(x));
    }
    all
}

/// Whether each part of some is what its production asks.
#[cycle(levelling)]
#[tactic(auto, using(c_tree::proofs::ToldLemmas::all_start, c_tree::proofs::ToldLemmas::all_step, c_tree::proofs::ToldLemmas::all_end, c_tree::proofs::ToldLemmas::all_members))]
pub fn members_fit(xs: &[MemberDeclaration]) -> bool
    ensures { result ≡ told (levelled_members (members_of xs.now)) }
{
    let mut all = true;
    for x in xs {
        all = both(all, member_fits(x));
    }
    all
}

/// Whether each part of some is what its production asks.
#[cycle(levelling)]
#[tactic(auto, using(c_tree::proofs::ToldLemmas::all_start, c_tree::proofs::ToldLemmas::all_step, c_tree::proofs::ToldLemmas::all_end, c_tree::proofs::ToldLemmas::all_member_declarators))]
pub fn member_declarators_fit(xs: &[MemberDeclarator]) -> bool
    ensures { result ≡ told (levelled_member_declarators (member_declarators_of xs.now)) }
{
    let mut all = true;
    for x in xs {
        all = both(all, member_declarator_fits(x));
    }
    all
}

/// Whether each part of some is what its production asks.
#[cycle(levelling)]
#[tactic(auto, using(c_tree::proofs::ToldLemmas::all_start, c_tree::proofs::ToldLemmas::all_step, c_tree::proofs::ToldLemmas::all_end, c_tree::proofs::ToldLemmas::all_enumerators))]
pub fn enumerators_fit(xs: &[Enumerator]) -> bool
    ensures { result ≡ told (levelled_enumerators (enumerators_of xs.now)) }
{
    let mut all = true;
    for x in xs {
        all = both(all, enumerator_fits(x));
    }
    all
}

/// Whether each part of some is what its production asks.
#[cycle(levelling)]
#[tactic(auto, using(c_tree::proofs::ToldLemmas::all_start, c_tree::proofs::ToldLemmas::all_step, c_tree::proofs::ToldLemmas::all_end, c_tree::proofs::ToldLemmas::all_parameters))]
pub fn parameters_fit(xs: &[Parameter]) -> bool
    ensures { result ≡ told (levelled_parameters (parameters_of xs.now)) }
{
    let mut all = true;
    for x in xs {
        all = both(all, parameter_fits(x));
    }
    all
}

/// Whether each part of some is what its production asks.
#[cycle(levelling)]
#[tactic(auto, using(c_tree::proofs::ToldLemmas::all_start, c_tree::proofs::ToldLemmas::all_step, c_tree::proofs::ToldLemmas::all_end, c_tree::proofs::ToldLemmas::all_items))]
pub fn items_fit(xs: &[InitItem]) -> bool
    ensures { result ≡ told (levelled_items (items_of xs.now)) }
{
    let mut all = true;
    for x in xs {
        all = both(all, item_fits(x));
    }
    all
}

/// Whether each part of some is what its production asks.
#[cycle(levelling)]
#[tactic(auto, using(c_tree::proofs::ToldLemmas::all_start, c_tree::proofs::ToldLemmas::all_step, c_tree::proofs::ToldLemmas::all_end, c_tree::proofs::ToldLemmas::all_designators))]
pub fn designators_fit(xs: &[Designator]) -> bool
    ensures { result ≡ told (levelled_designators (designators_of xs.now)) }
{
    let mut all = true;
    for x in xs {
        all = both(all, designator_fits(x));
    }
    all
}
