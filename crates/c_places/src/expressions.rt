ghost use Rattle.std.specs.Prelude.{◌≡◌};
ghost use Rattle.c_tree.specs.Syntax as plain;
ghost use Rattle.c_tree.specs.View.{expr_of, specifier_of, specifiers_of, member_of, member_declarator_of, enumerator_of, declarator_of, bound_of, parameter_of, init_of, item_of, designator_of};
ghost use Rattle.c_tree.specs.Places.{first_expr, first_specifier, first_specifiers, first_type_name, first_member, first_member_declarator, first_enumerator, first_declarator, first_bound, first_parameter, first_init, first_item, first_designator};

use c_tree::{
    ArrayBound, Declarator, Designator, Enumerator, Expr, Init, InitItem, MemberDeclaration,
    MemberDeclarator, Parameter, Specifier, TypeName,
};

/// The number of the first token of an expression.
pub fn expr_at(e: &Expr) -> u32
    ensures { result ≡ first_expr (expr_of e.now) }
{
    match e {
        Expr::Name(at, _)
        | Expr::Integer(at, _)
        | Expr::Character(at, _)
        | Expr::Literals(at, _)
        | Expr::Parentheses(at, _)
        | Expr::Index(at, ..)
        | Expr::Call(at, ..)
        | Expr::Member(at, ..)
        | Expr::Arrow(at, ..)
        | Expr::Postfix(at, ..)
        | Expr::CompoundLiteral(at, ..)
        | Expr::Prefix(at, ..)
        | Expr::Unary(at, ..)
        | Expr::SizeofExpr(at, _)
        | Expr::SizeofType(at, _)
        | Expr::AlignofType(at, _)
        | Expr::Cast(at, ..)
        | Expr::Binary(at, ..)
        | Expr::Logical(at, ..)
        | Expr::Conditional(at, ..)
        | Expr::Assign(at, ..)
        | Expr::Comma(at, ..) => *at,
    }
}

/// The number of the first token of a specifier.
pub fn specifier_at(s: &Specifier) -> u32
    ensures { result ≡ first_specifier (specifier_of s.now) }
{
    match s {
        Specifier::Storage(at, _)
        | Specifier::Basic(at, _)
        | Specifier::Qualifier(at, _)
        | Specifier::Function(at, _)
        | Specifier::TypedefName(at, _)
        | Specifier::Tag(at, ..)
        | Specifier::Members(at, ..)
        | Specifier::Enumerators(at, ..) => *at,
    }
}

/// The number of the first token of specifiers, none where there are none.
pub fn specifiers_at(ss: &[Specifier]) -> Option<u32>
    ensures { result ≡ first_specifiers (specifiers_of ss.now) }
{
    match ss {
        [first, ..] => Some(specifier_at(first)),
        [] => None,
    }
}

/// The number of the first token of a type name, none where it has no specifiers.
pub fn type_name_at(t: &TypeName) -> Option<u32>
    ensures { result ≡ first_type_name (plain.TypeName (specifiers_of t.now.specifiers.items) (declarator_of t.now.declarator)) }
{
    specifiers_at(&t.specifiers)
}

/// The number of the first token of a declaration among members, none where it has no specifiers.
pub fn member_at(m: &MemberDeclaration) -> Option<u32>
    ensures { result ≡ first_member (member_of m.now) }
{
    match m {
        MemberDeclaration::Members(ss, _) => specifiers_at(ss),
        MemberDeclaration::StaticAssert(a) => Some(a.at),
    }
}

/// The number of the first token of a declarator; of an absent identifier that of the token behind its place.
pub fn declarator_at(d: &Declarator) -> u32
    ensures { result ≡ first_declarator (declarator_of d.now) }
{
    match d {
        Declarator::Name(at, _)
        | Declarator::Absent(at)
        | Declarator::Parentheses(at, _)
        | Declarator::Pointer(at, ..)
        | Declarator::Array(at, ..)
        | Declarator::Function(at, ..)
        | Declarator::Identifiers(at, ..) => *at,
    }
}

/// The number of the first token of a member's declarator.
pub fn member_declarator_at(d: &MemberDeclarator) -> u32
    ensures { result ≡ first_member_declarator (member_declarator_of d.now) }
{
    match d {
        MemberDeclarator::Plain(d) => declarator_at(d),
        MemberDeclarator::BitField(d, _) => declarator_at(d),
    }
}

/// The number of the bracket that opens an array's bound.
pub fn bound_at(b: &ArrayBound) -> u32
    ensures { result ≡ first_bound (bound_of b.now) }
{
    match b {
        ArrayBound::Unspecified(at, _)
        | ArrayBound::Star(at, _)
        | ArrayBound::Size(at, ..)
        | ArrayBound::StaticSize(at, ..)
        | ArrayBound::SizeStatic(at, ..) => *at,
    }
}

/// The number of the first token of an enumerator.
pub fn enumerator_at(e: &Enumerator) -> u32
    ensures { result ≡ first_enumerator (enumerator_of e.now) }
{
    e.at
}

/// The number of the first token of a parameter, none where it has no specifiers.
pub fn parameter_at(p: &Parameter) -> Option<u32>
    ensures { result ≡ first_parameter (parameter_of p.now) }
{
    specifiers_at(&p.specifiers)
}

/// The number of the first token of an initialiser.
pub fn init_at(x: &Init) -> u32
    ensures { result ≡ first_init (init_of x.now) }
{
    match x {
        Init::Expr(e) => expr_at(e),
        Init::Braces(at, ..) => *at,
    }
}

/// The number of the first token of a designator.
pub fn designator_at(d: &Designator) -> u32
    ensures { result ≡ first_designator (designator_of d.now) }
{
    match d {
        Designator::Index(at, _) | Designator::Member(at, _) => *at,
    }
}

/// The number of the first token of an item of a brace list.
pub fn item_at(x: &InitItem) -> u32
    ensures { result ≡ first_item (item_of x.now) }
{
    match x.designators.as_slice() {
        [first, ..] => designator_at(first),
        [] => init_at(&x.init),
    }
}
