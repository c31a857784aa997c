ghost use Rattle.std.specs.Prelude.{◌≡◌, OnOk};
ghost use Rattle.c_tree.specs.Syntax as plain;
ghost use Rattle.c_tree.specs.View.{expr_of, specifier_of, specifiers_of, member_of, member_declarator_of, enumerator_of, declarator_of, bound_of, parameter_of, init_of, item_of, designator_of, exprs_of, members_of, member_declarators_of, enumerators_of, parameters_of, items_of, designators_of};
ghost use Rattle.c_tree.specs.Scoped.{declared_if, declared_all, after_expr, after_exprs, after_type_name, after_specifier, after_specifiers, after_member, after_members, after_member_declarator, after_member_declarators, after_enumerator, after_enumerators, after_declarator, after_bound, after_parameter, after_parameters, after_init, after_item, after_items, after_designator, after_designators, after_own_list};

use c_exprs::{has_typedef, name_of};
use c_tree::{
    ArrayBound, Declarator, Designator, Enumerator, Expr, Init, InitItem, MemberDeclaration,
    MemberDeclarator, Parameter, Specifier, TypeName, is_underived,
};
use cil_base::{Memory, NameId};
use typedef_scopes::Scopes;

// What trees declare is declared here once more, in the order of their text: enumerators, and parameters in their own list.

/// The enumerators of an expression.
#[cycle(once_more)]
#[tactic(auto, using(c_tree::proofs::Views::at_call, c_tree::proofs::Views::at_compound_literal, c_tree::proofs::Views::at_sizeof, c_tree::proofs::Views::at_alignof, c_tree::proofs::Views::at_cast))]
fn declare_expr(x: &Expr, s: &mut Scopes) -> Result<(), Memory>
    ensures { OnOk result (s.new ≡ after_expr s.old (expr_of x.now)) }
{
    match x {
        Expr::Name(..) | Expr::Integer(..) | Expr::Character(..) | Expr::Literals(..) => Ok(()),
        Expr::Parentheses(_, e) => declare_expr(e, s),
        Expr::Index(_, e, i) => {
            declare_expr(e, s)?;
            declare_expr(i, s)
        }
        Expr::Call(_, e, es) => {
            declare_expr(e, s)?;
            declare_exprs(es, s)
        }
        Expr::Member(_, e, _) => declare_expr(e, s),
        Expr::Arrow(_, e, _) => declare_expr(e, s),
        Expr::Postfix(_, e, _) => declare_expr(e, s),
        Expr::CompoundLiteral(_, t, items, _) => {
            declare_type(t, s)?;
            declare_items(items, s)
        }
        Expr::Prefix(_, _, e) => declare_expr(e, s),
        Expr::Unary(_, _, e) => declare_expr(e, s),
        Expr::SizeofExpr(_, e) => declare_expr(e, s),
        Expr::SizeofType(_, t) => declare_type(t, s),
        Expr::AlignofType(_, t) => declare_type(t, s),
        Expr::Cast(_, t, e) => {
            declare_type(t, s)?;
            declare_expr(e, s)
        }
        Expr::Binary(_, _, l, r) => {
            declare_expr(l, s)?;
            declare_expr(r, s)
        }
        Expr::Logical(_, _, l, r) => {
            declare_expr(l, s)?;
            declare_expr(r, s)
        }
        Expr::Conditional(_, e, a, b) => {
            declare_expr(e, s)?;
            declare_expr(a, s)?;
            declare_expr(b, s)
        }
        Expr::Assign(_, _, l, r) => {
            declare_expr(l, s)?;
            declare_expr(r, s)
        }
        Expr::Comma(_, l, r) => {
            declare_expr(l, s)?;
            declare_expr(r, s)
        }
    }
}

/// The enumerators of a type name.
#[cycle(once_more)]
fn declare_type(x: &TypeName, s: &mut Scopes) -> Result<(), Memory>
    ensures { OnOk result (s.new ≡ after_type_name s.old (plain.TypeName (specifiers_of x.now.specifiers.items) (declarator_of x.now.declarator))) }
{
    declare_specifiers(&x.specifiers, s)?;
    declare_declarator(&x.declarator, s)
}

/// The enumerators of a specifier.
#[cycle(once_more)]
#[tactic(auto, using(c_tree::proofs::Views::at_struct, c_tree::proofs::Views::at_enum))]
fn declare_specifier(x: &Specifier, s: &mut Scopes) -> Result<(), Memory>
    ensures { OnOk result (s.new ≡ after_specifier s.old (specifier_of x.now)) }
{
    match x {
        Specifier::Members(_, _, _, members) => declare_members(members, s),
        Specifier::Enumerators(_, _, es, _) => declare_enumerators(es, s),
        Specifier::Storage(..) => Ok(()),
        Specifier::Basic(..) => Ok(()),
        Specifier::Qualifier(..) => Ok(()),
        Specifier::Function(..) => Ok(()),
        Specifier::TypedefName(..) => Ok(()),
        Specifier::Tag(..) => Ok(()),
    }
}

/// The enumerators of a declaration among members.
#[cycle(once_more)]
#[tactic(auto, using(c_tree::proofs::Views::at_member))]
fn declare_member(x: &MemberDeclaration, s: &mut Scopes) -> Result<(), Memory>
    ensures { OnOk result (s.new ≡ after_member s.old (member_of x.now)) }
{
    match x {
        MemberDeclaration::Members(ss, ds) => {
            declare_specifiers(ss, s)?;
            declare_member_declarators(ds, s)
        }
        MemberDeclaration::StaticAssert(a) => declare_expr(&a.condition, s),
    }
}

/// The enumerators of a member's declarator.
#[cycle(once_more)]
fn declare_member_declarator(x: &MemberDeclarator, s: &mut Scopes) -> Result<(), Memory>
    ensures { OnOk result (s.new ≡ after_member_declarator s.old (member_declarator_of x.now)) }
{
    match x {
        MemberDeclarator::Plain(d) => declare_declarator(d, s),
        MemberDeclarator::BitField(d, width) => {
            declare_declarator(d, s)?;
            declare_expr(width, s)
        }
    }
}

/// An enumerator, behind those of its value (C11 6.2.1p7).
#[cycle(once_more)]
fn declare_enumerator(x: &Enumerator, s: &mut Scopes) -> Result<(), Memory>
    ensures { OnOk result (s.new ≡ after_enumerator s.old (enumerator_of x.now)) }
{
    match &x.value {
        None => s.declare(x.name, false),
        Some(e) => {
            declare_expr(e, s)?;
            s.declare(x.name, false)
        }
    }
}

/// The enumerators of a declarator, but for those of its parameter lists, which are left at their end (C11 6.2.1p4).
#[cycle(once_more)]
#[tactic(auto, using(c_tree::proofs::Views::at_function))]
fn declare_declarator(x: &Declarator, s: &mut Scopes) -> Result<(), Memory>
    ensures { OnOk result (s.new ≡ after_declarator s.old (declarator_of x.now)) }
{
    match x {
        Declarator::Name(..) | Declarator::Absent(_) => Ok(()),
        Declarator::Parentheses(_, d) => declare_declarator(d, s),
        Declarator::Pointer(_, _, d) => declare_declarator(d, s),
        Declarator::Array(_, d, b) => {
            declare_declarator(d, s)?;
            declare_bound(b, s)
        }
        Declarator::Function(_, d, _, _) => declare_declarator(d, s),
        Declarator::Identifiers(_, d, _) => declare_declarator(d, s),
    }
}

/// The enumerators of the size in an array declarator.
#[cycle(once_more)]
fn declare_bound(x: &ArrayBound, s: &mut Scopes) -> Result<(), Memory>
    ensures { OnOk result (s.new ≡ after_bound s.old (bound_of x.now)) }
{
    match x {
        ArrayBound::Unspecified(..) | ArrayBound::Star(..) => Ok(()),
        ArrayBound::Size(_, _, e) => declare_expr(e, s),
        ArrayBound::StaticSize(_, _, e) => declare_expr(e, s),
        ArrayBound::SizeStatic(_, _, e) => declare_expr(e, s),
    }
}

/// The enumerators of an initialiser.
#[cycle(once_more)]
#[tactic(auto, using(c_tree::proofs::Views::at_braces))]
fn declare_init(x: &Init, s: &mut Scopes) -> Result<(), Memory>
    ensures { OnOk result (s.new ≡ after_init s.old (init_of x.now)) }
{
    match x {
        Init::Expr(e) => declare_expr(e, s),
        Init::Braces(_, items, _) => declare_items(items, s),
    }
}

/// The enumerators of an initialiser with its designators.
#[cycle(once_more)]
fn declare_item(x: &InitItem, s: &mut Scopes) -> Result<(), Memory>
    ensures { OnOk result (s.new ≡ after_item s.old (item_of x.now)) }
{
    declare_designators(&x.designators, s)?;
    declare_init(&x.init, s)
}

/// The enumerators of a designator.
#[cycle(once_more)]
fn declare_designator(x: &Designator, s: &mut Scopes) -> Result<(), Memory>
    ensures { OnOk result (s.new ≡ after_designator s.old (designator_of x.now)) }
{
    match x {
        Designator::Index(_, e) => declare_expr(e, s),
        Designator::Member(..) => Ok(()),
    }
}

/// The enumerators of expressions.
#[cycle(once_more)]
#[tactic(auto, using(crate::proofs::OwnListLemmas::reaches_start, crate::proofs::OwnListLemmas::reaches_end, crate::proofs::OwnListLemmas::fold_exprs))]
fn declare_exprs(xs: &[Expr], s: &mut Scopes) -> Result<(), Memory>
    ensures { OnOk result (s.new ≡ after_exprs s.old (exprs_of xs.now)) }
{
    for x in xs {
        declare_expr(x, s)?;
    }
    Ok(())
}

/// The enumerators of specifiers.
#[cycle(once_more)]
#[tactic(auto, using(crate::proofs::OwnListLemmas::reaches_start, crate::proofs::OwnListLemmas::reaches_end, crate::proofs::OwnListLemmas::fold_specifiers))]
fn declare_specifiers(xs: &[Specifier], s: &mut Scopes) -> Result<(), Memory>
    ensures { OnOk result (s.new ≡ after_specifiers s.old (specifiers_of xs.now)) }
{
    for x in xs {
        declare_specifier(x, s)?;
    }
    Ok(())
}

/// The enumerators of declarations among members.
#[cycle(once_more)]
#[tactic(auto, using(crate::proofs::OwnListLemmas::reaches_start, crate::proofs::OwnListLemmas::reaches_end, crate::proofs::OwnListLemmas::fold_members))]
fn declare_members(xs: &[MemberDeclaration], s: &mut Scopes) -> Result<(), Memory>
    ensures { OnOk result (s.new ≡ after_members s.old (members_of xs.now)) }
{
    for x in xs {
        declare_member(x, s)?;
    }
    Ok(())
}

/// The enumerators of declarators of members.
#[cycle(once_more)]
#[tactic(auto, using(crate::proofs::OwnListLemmas::reaches_start, crate::proofs::OwnListLemmas::reaches_end, crate::proofs::OwnListLemmas::fold_member_declarators))]
fn declare_member_declarators(xs: &[MemberDeclarator], s: &mut Scopes) -> Result<(), Memory>
    ensures { OnOk result (s.new ≡ after_member_declarators s.old (member_declarators_of xs.now)) }
{
    for x in xs {
        declare_member_declarator(x, s)?;
    }
    Ok(())
}

/// Enumerators.
#[cycle(once_more)]
#[tactic(auto, using(crate::proofs::OwnListLemmas::reaches_start, crate::proofs::OwnListLemmas::reaches_end, crate::proofs::OwnListLemmas::fold_enumerators))]
fn declare_enumerators(xs: &[Enumerator], s: &mut Scopes) -> Result<(), Memory>
    ensures { OnOk result (s.new ≡ after_enumerators s.old (enumerators_of xs.now)) }
{
    for x in xs {
        declare_enumerator(x, s)?;
    }
    Ok(())
}

/// The enumerators of initialisers with their designators.
#[cycle(once_more)]
#[tactic(auto, using(crate::proofs::OwnListLemmas::reaches_start, crate::proofs::OwnListLemmas::reaches_end, crate::proofs::OwnListLemmas::fold_items))]
fn declare_items(xs: &[InitItem], s: &mut Scopes) -> Result<(), Memory>
    ensures { OnOk result (s.new ≡ after_items s.old (items_of xs.now)) }
{
    for x in xs {
        declare_item(x, s)?;
    }
    Ok(())
}

/// The enumerators of designators.
#[cycle(once_more)]
#[tactic(auto, using(crate::proofs::OwnListLemmas::reaches_start, crate::proofs::OwnListLemmas::reaches_end, crate::proofs::OwnListLemmas::fold_designators))]
fn declare_designators(xs: &[Designator], s: &mut Scopes) -> Result<(), Memory>
    ensures { OnOk result (s.new ≡ after_designators s.old (designators_of xs.now)) }
{
    for x in xs {
        declare_designator(x, s)?;
    }
    Ok(())
}

/// A name, where there is one.
pub(crate) fn declare_if(name: Option<NameId>, typedef: bool, s: &mut Scopes) -> Result<(), Memory>
    ensures { OnOk result (s.new ≡ declared_if name typedef s.old) }
{
    match name {
        None => Ok(()),
        Some(n) => s.declare(n, typedef),
    }
}

/// A parameter, behind the enumerators of its declaration.
fn declare_parameter(x: &Parameter, s: &mut Scopes) -> Result<(), Memory>
    ensures { OnOk result (s.new ≡ after_parameter s.old (parameter_of x.now)) }
{
    declare_specifiers(&x.specifiers, s)?;
    declare_declarator(&x.declarator, s)?;
    declare_if(name_of(&x.declarator), has_typedef(&x.specifiers), s)
}

/// The parameters of a list.
#[tactic(auto, using(crate::proofs::OwnListLemmas::reaches_start, crate::proofs::OwnListLemmas::reaches_step, crate::proofs::OwnListLemmas::reaches_end, crate::proofs::OwnListLemmas::fold_parameters))]
fn declare_parameters(xs: &[Parameter], s: &mut Scopes) -> Result<(), Memory>
    ensures { OnOk result (s.new ≡ after_parameters s.old (parameters_of xs.now)) }
{
    for x in xs {
        declare_parameter(x, s)?;
    }
    Ok(())
}

/// The identifiers of a list, as no typedef names.
#[tactic(auto, using(crate::proofs::OwnListLemmas::reaches_start, crate::proofs::OwnListLemmas::reaches_step, crate::proofs::OwnListLemmas::reaches_end, crate::proofs::OwnListLemmas::fold_names))]
fn declare_names(xs: &[NameId], s: &mut Scopes) -> Result<(), Memory>
    ensures { OnOk result (s.new ≡ declared_all s.old xs.now) }
{
    for x in xs {
        s.declare(*x, false)?;
    }
    Ok(())
}

/// Declares in the innermost scope what a function's own list declares: the parameter list or identifier list that is the first derivation
/// of the declared identifier (C11 6.2.1p4, 6.9.1). After Memory the scopes are only to be dropped.
#[tactic(auto, using(c_tree::proofs::Views::at_function))]
pub fn declare_own_list(x: &Declarator, s: &mut Scopes) -> Result<(), Memory>
    ensures { OnOk result (s.new ≡ after_own_list s.old (declarator_of x.now)) }
{
    match x {
        Declarator::Name(..) | Declarator::Absent(_) => Ok(()),
        Declarator::Parentheses(_, d) => declare_own_list(d, s),
        Declarator::Pointer(_, _, d) => declare_own_list(d, s),
        Declarator::Array(_, d, _) => declare_own_list(d, s),
        Declarator::Function(_, d, ps, _) => {
            if is_underived(d) {
                declare_parameters(ps, s)
            } else {
                declare_own_list(d, s)
            }
        }
        Declarator::Identifiers(_, d, names) => {
            if is_underived(d) {
                declare_names(names, s)
            } else {
                declare_own_list(d, s)
            }
        }
    }
}
