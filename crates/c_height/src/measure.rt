ghost use Rattle.std.specs.Prelude.{◌≡◌, ℕ, ◌+◌, ◌<◌, max};
ghost use Rattle.c_tree.specs.View.{expr_of, specifier_of, specifiers_of, member_of, member_declarator_of, enumerator_of, declarator_of, bound_of, parameter_of, init_of, item_of, designator_of, exprs_of, members_of, member_declarators_of, enumerators_of, parameters_of, items_of, designators_of};
ghost use Rattle.c_tree.specs.Height.{tag_height, expr_height, specifier_height, specifiers_height, member_height, member_declarator_height, enumerator_height, declarator_height, bound_height, parameter_height, init_height, item_height, designator_height, exprs_height, members_height, member_declarators_height, enumerators_height, parameters_height, items_height, designators_height};
ghost use Rattle.c_tree.specs.Capped.{capped};

use c_tree::{
    ArrayBound, Declarator, Designator, Enumerator, Expr, Init, InitItem, MemberDeclaration,
    MemberDeclarator, Parameter, Specifier, TypeName,
};
use cil_base::NameId;

/// One more than a height, up to the greatest number.
#[tactic(auto, using(c_tree::proofs::CappedLemmas::capped_above))]
pub fn above(h: u32) -> u32
    ensures { (n : ℕ) → h ≡ capped n → result ≡ capped (1 + n) }
{
    h.saturating_add(1)
}

/// The higher of two.
#[tactic(auto, using(c_tree::proofs::CappedLemmas::capped_max))]
pub fn higher(a: u32, b: u32) -> u32
    ensures is { result ≡ max a b }
    ensures capped { (m n : ℕ) → a ≡ capped m → b ≡ capped n → result ≡ capped (max m n) }
{
    a.max(b)
}

/// The height of a tag that may be absent.
#[tactic(auto, using(c_tree::proofs::CappedLemmas::capped_zero, c_tree::proofs::CappedLemmas::capped_one))]
pub fn height_of_tag(tag: &Option<NameId>) -> u32
    ensures { result ≡ capped (tag_height tag.now) }
{
    match tag {
        None => 0,
        Some(_) => 1,
    }
}

/// The height of an expression.
#[cycle(height)]
#[tactic(auto, using(c_tree::proofs::Views::at_call, c_tree::proofs::Views::at_compound_literal, c_tree::proofs::Views::at_sizeof, c_tree::proofs::Views::at_alignof, c_tree::proofs::Views::at_cast, c_tree::proofs::CappedLemmas::capped_one, c_tree::proofs::CappedLemmas::most_exprs, c_tree::proofs::CappedLemmas::most_items))]
pub fn height_of_expr(x: &Expr) -> u32
    ensures { result ≡ capped (expr_height (expr_of x.now)) }
{
    match x {
        Expr::Name(..) | Expr::Integer(..) | Expr::Character(..) | Expr::Literals(..) => 1,
        Expr::Parentheses(_, e) => above(height_of_expr(e)),
        Expr::Index(_, e, i) => above(higher(height_of_expr(e), height_of_expr(i))),
        Expr::Call(_, e, es) => above(higher(height_of_expr(e), height_of_exprs(es))),
        Expr::Member(_, e, _) => above(height_of_expr(e)),
        Expr::Arrow(_, e, _) => above(height_of_expr(e)),
        Expr::Postfix(_, e, _) => above(height_of_expr(e)),
        Expr::CompoundLiteral(_, t, items, _) => above(higher(
            height_of_type(t),
            height_of_items(items),
        )),
        Expr::Prefix(_, _, e) => above(height_of_expr(e)),
        Expr::Unary(_, _, e) => above(height_of_expr(e)),
        Expr::SizeofExpr(_, e) => above(height_of_expr(e)),
        Expr::SizeofType(_, t) => above(height_of_type(t)),
        Expr::AlignofType(_, t) => above(height_of_type(t)),
        Expr::Cast(_, t, e) => above(higher(height_of_type(t), height_of_expr(e))),
        Expr::Binary(_, _, l, r) => above(higher(height_of_expr(l), height_of_expr(r))),
        Expr::Logical(_, _, l, r) => above(higher(height_of_expr(l), height_of_expr(r))),
        Expr::Conditional(_, c, a, b) => above(higher(
            higher(height_of_expr(c), height_of_expr(a)),
            height_of_expr(b),
        )),
        Expr::Assign(_, _, l, r) => above(higher(height_of_expr(l), height_of_expr(r))),
        Expr::Comma(_, l, r) => above(higher(height_of_expr(l), height_of_expr(r))),
    }
}

/// The height of a type name's parts.
#[cycle(height)]
pub fn height_of_type(x: &TypeName) -> u32
    ensures { result ≡ capped (max (specifiers_height (specifiers_of x.now.specifiers.items)) (declarator_height (declarator_of x.now.declarator))) }
{
    higher(
        height_of_specifiers(&x.specifiers),
        height_of_declarator(&x.declarator),
    )
}

/// The height of a specifier: none for a keyword.
#[cycle(height)]
#[tactic(auto, using(c_tree::proofs::Views::at_struct, c_tree::proofs::Views::at_enum, c_tree::proofs::CappedLemmas::capped_zero, c_tree::proofs::CappedLemmas::capped_one))]
pub fn height_of_specifier(x: &Specifier) -> u32
    ensures { result ≡ capped (specifier_height (specifier_of x.now)) }
{
    match x {
        Specifier::Members(_, _, tag, members) => above(higher(
            height_of_tag(tag),
            height_of_members(members),
        )),
        Specifier::Enumerators(_, tag, es, _) => above(higher(
            height_of_tag(tag),
            height_of_enumerators(es),
        )),
        Specifier::Storage(..) => 0,
        Specifier::Basic(..) => 0,
        Specifier::Qualifier(..) => 0,
        Specifier::Function(..) => 0,
        Specifier::TypedefName(..) => 1,
        Specifier::Tag(..) => 1,
    }
}

/// The height of a declaration among members.
#[cycle(height)]
#[tactic(auto, using(c_tree::proofs::Views::at_member, c_tree::proofs::CappedLemmas::capped_one))]
pub fn height_of_member(x: &MemberDeclaration) -> u32
    ensures { result ≡ capped (member_height (member_of x.now)) }
{
    match x {
        MemberDeclaration::Members(ss, ds) => higher(
            height_of_specifiers(ss),
            height_of_member_declarators(ds),
        ),
        MemberDeclaration::StaticAssert(a) => higher(height_of_expr(&a.condition), 1),
    }
}

/// The height of a member's declarator.
#[cycle(height)]
#[tactic(auto, using(c_tree::proofs::CappedLemmas::capped_one))]
pub fn height_of_member_declarator(x: &MemberDeclarator) -> u32
    ensures { result ≡ capped (member_declarator_height (member_declarator_of x.now)) }
{
    match x {
        MemberDeclarator::Plain(d) => height_of_declarator(d),
        MemberDeclarator::BitField(d, width) => higher(
            height_of_declarator(d),
            height_of_expr(width),
        ),
    }
}

/// The height of an enumerator's value.
#[cycle(height)]
#[tactic(auto, using(c_tree::proofs::CappedLemmas::capped_one))]
pub fn height_of_enumerator(x: &Enumerator) -> u32
    ensures { result ≡ capped (enumerator_height (enumerator_of x.now)) }
{
    match &x.value {
        None => 1,
        Some(e) => height_of_expr(e),
    }
}

/// The height of a declarator.
#[cycle(height)]
#[tactic(auto, using(c_tree::proofs::Views::at_function, c_tree::proofs::CappedLemmas::capped_one))]
pub fn height_of_declarator(x: &Declarator) -> u32
    ensures { result ≡ capped (declarator_height (declarator_of x.now)) }
{
    match x {
        Declarator::Name(..) | Declarator::Absent(_) => 1,
        Declarator::Parentheses(_, d) => above(height_of_declarator(d)),
        Declarator::Pointer(_, _, d) => above(height_of_declarator(d)),
        Declarator::Array(_, d, b) => above(higher(height_of_declarator(d), height_of_bound(b))),
        Declarator::Function(_, d, ps, _) => above(higher(
            height_of_declarator(d),
            height_of_parameters(ps),
        )),
        Declarator::Identifiers(_, d, _) => above(height_of_declarator(d)),
    }
}

/// The height of the size in an array declarator.
#[cycle(height)]
#[tactic(auto, using(c_tree::proofs::CappedLemmas::capped_zero))]
pub fn height_of_bound(x: &ArrayBound) -> u32
    ensures { result ≡ capped (bound_height (bound_of x.now)) }
{
    match x {
        ArrayBound::Unspecified(..) | ArrayBound::Star(..) => 0,
        ArrayBound::Size(_, _, e) => height_of_expr(e),
        ArrayBound::StaticSize(_, _, e) => height_of_expr(e),
        ArrayBound::SizeStatic(_, _, e) => height_of_expr(e),
    }
}

/// The height of a parameter's declaration.
#[cycle(height)]
pub fn height_of_parameter(x: &Parameter) -> u32
    ensures { result ≡ capped (parameter_height (parameter_of x.now)) }
{
    higher(
        height_of_specifiers(&x.specifiers),
        height_of_declarator(&x.declarator),
    )
}

/// The height of an initialiser.
#[cycle(height)]
#[tactic(auto, using(c_tree::proofs::Views::at_braces))]
pub fn height_of_init(x: &Init) -> u32
    ensures { result ≡ capped (init_height (init_of x.now)) }
{
    match x {
        Init::Expr(e) => height_of_expr(e),
        Init::Braces(_, items, _) => above(height_of_items(items)),
    }
}

/// The height of an initialiser with its designators.
#[cycle(height)]
pub fn height_of_item(x: &InitItem) -> u32
    ensures { result ≡ capped (item_height (item_of x.now)) }
{
    higher(
        height_of_designators(&x.designators),
        height_of_init(&x.init),
    )
}

/// The height of a designator.
#[cycle(height)]
#[tactic(auto, using(c_tree::proofs::CappedLemmas::capped_one))]
pub fn height_of_designator(x: &Designator) -> u32
    ensures { result ≡ capped (designator_height (designator_of x.now)) }
{
    match x {
        Designator::Index(_, e) => height_of_expr(e),
        Designator::Member(..) => 1,
    }
}

/// The greatest height of some.
#[cycle(height)]
#[tactic(auto, using(c_tree::proofs::CappedLemmas::highest_start, c_tree::proofs::CappedLemmas::highest_step, c_tree::proofs::CappedLemmas::highest_end, c_tree::proofs::CappedLemmas::most_exprs))]
pub fn height_of_exprs(xs: &[Expr]) -> u32
    ensures { result ≡ capped (exprs_height (exprs_of xs.now)) }
{
    let mut most = 0;
    for x in xs {
        most = higher(most, height_of_expr(x));
    }
    most
}

/// The greatest height of some.
#[cycle(height)]
#[tactic(auto, using(c_tree::proofs::CappedLemmas::highest_start, c_tree::proofs::CappedLemmas::highest_step, c_tree::proofs::CappedLemmas::highest_end, c_tree::proofs::CappedLemmas::most_specifiers))]
pub fn height_of_specifiers(xs: &[Specifier]) -> u32
    ensures { result ≡ capped (specifiers_height (specifiers_of xs.now)) }
{
    let mut most = 0;
    for x in xs {
        most = higher(most, height_of_specifier(x));
    }
    most
}

/// The greatest height of some.
#[cycle(height)]
#[tactic(auto, using(c_tree::proofs::CappedLemmas::highest_start, c_tree::proofs::CappedLemmas::highest_step, c_tree::proofs::CappedLemmas::highest_end, c_tree::proofs::CappedLemmas::most_members))]
pub fn height_of_members(xs: &[MemberDeclaration]) -> u32
    ensures { result ≡ capped (members_height (members_of xs.now)) }
{
    let mut most = 0;
    for x in xs {
        most = higher(most, height_of_member(x));
    }
    most
}

/// The greatest height of some.
#[cycle(height)]
#[tactic(auto, using(c_tree::proofs::CappedLemmas::highest_start, c_tree::proofs::CappedLemmas::highest_step, c_tree::proofs::CappedLemmas::highest_end, c_tree::proofs::CappedLemmas::most_member_declarators))]
pub fn height_of_member_declarators(xs: &[MemberDeclarator]) -> u32
    ensures { result ≡ capped (member_declarators_height (member_declarators_of xs.now)) }
{
    let mut most = 0;
    for x in xs {
        most = higher(most, height_of_member_declarator(x));
    }
    most
}

/// The greatest height of some.
#[cycle(height)]
#[tactic(auto, using(c_tree::proofs::CappedLemmas::highest_start, c_tree::proofs::CappedLemmas::highest_step, c_tree::proofs::CappedLemmas::highest_end, c_tree::proofs::CappedLemmas::most_enumerators))]
pub fn height_of_enumerators(xs: &[Enumerator]) -> u32
    ensures { result ≡ capped (enumerators_height (enumerators_of xs.now)) }
{
    let mut most = 0;
    for x in xs {
        most = higher(most, height_of_enumerator(x));
    }
    most
}

/// The greatest height of some.
#[cycle(height)]
#[tactic(auto, using(c_tree::proofs::CappedLemmas::highest_start, c_tree::proofs::CappedLemmas::highest_step, c_tree::proofs::CappedLemmas::highest_end, c_tree::proofs::CappedLemmas::most_parameters))]
pub fn height_of_parameters(xs: &[Parameter]) -> u32
    ensures { result ≡ capped (parameters_height (parameters_of xs.now)) }
{
    let mut most = 0;
    for x in xs {
        most = higher(most, height_of_parameter(x));
    }
    most
}

/// The greatest height of some.
#[cycle(height)]
#[tactic(auto, using(c_tree::proofs::CappedLemmas::highest_start, c_tree::proofs::CappedLemmas::highest_step, c_tree::proofs::CappedLemmas::highest_end, c_tree::proofs::CappedLemmas::most_items))]
pub fn height_of_items(xs: &[InitItem]) -> u32
    ensures { result ≡ capped (items_height (items_of xs.now)) }
{
    let mut most = 0;
    for x in xs {
        most = higher(most, height_of_item(x));
    }
    most
}

/// The greatest height of some.
#[cycle(height)]
#[tactic(auto, using(c_tree::proofs::CappedLemmas::highest_start, c_tree::proofs::CappedLemmas::highest_step, c_tree::proofs::CappedLemmas::highest_end, c_tree::proofs::CappedLemmas::most_designators))]
pub fn height_of_designators(xs: &[Designator]) -> u32
    ensures { result ≡ capped (designators_height (designators_of xs.now)) }
{
    let mut most = 0;
    for x in xs {
        most = higher(most, height_of_designator(x));
    }
    most
}
