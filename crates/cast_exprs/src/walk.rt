use c_places::designator_at;
use c_places::expr_at;
use c_places::init_at;
use c_places::item_at;
use c_tree::ArrayBound;
use c_tree::Declarator;
use c_tree::Designator;
use c_tree::Enumerator;
use c_tree::Expr;
use c_tree::Init;
use c_tree::InitItem;
use c_tree::MemberDeclaration;
use c_tree::MemberDeclarator;
use c_tree::Parameter;
use c_tree::Specifier;
use c_tree::StaticAssert;
use c_tree::TypeName;
use cast_rules::Operand;
use cil_base::AggId;
use cil_base::Code;
use cil_base::Fault;
use cil_base::Feature;
use decl_types::Behind;
use decl_types::NewName;
use decl_types::Position;
use decl_types::Prototype;
use decl_types::heading_of;
use decl_types::qualifiers;
use init_parts::Designated;
use init_parts::Filled;
use init_parts::Filling;
use init_parts::Level;
use init_parts::Levels;
use init_parts::Place;
use init_parts::Storage;
use init_parts::choose_element;
use init_parts::choose_named;
use init_parts::chosen;
use init_parts::composite_of;
use init_parts::enter_designated;
use init_parts::is_character_array;
use init_parts::list_at;
use init_parts::literal_place;
use init_parts::literal_storage;
use init_parts::literal_type;
use init_parts::literals;
use init_parts::not_flexible;
use init_parts::only_string;
use init_parts::put_converted;
use init_parts::put_item;
use init_parts::put_literals;
use init_parts::put_string_item;
use init_parts::put_whole;
use init_parts::renew;
use smallvec::SmallVec;
use type_graph::QualType;
use typed_parts::Brackets;
use typed_parts::Company;
use typed_parts::Derivation;
use typed_parts::Evaluation;
use typed_parts::Role;
use typed_parts::WalkStop;
use typed_parts::Walker;
use typed_parts::add_anonymous;
use typed_parts::add_member;
use typed_parts::align_of;
use typed_parts::anonymous_body;
use typed_parts::arrow;
use typed_parts::assign;
use typed_parts::binary;
use typed_parts::bound_value;
use typed_parts::bracket_quals;
use typed_parts::built;
use typed_parts::bytes_of;
use typed_parts::call;
use typed_parts::cast;
use typed_parts::character;
use typed_parts::closed;
use typed_parts::comma;
use typed_parts::conditional;
use typed_parts::constant_value;
use typed_parts::declared_parameter;
use typed_parts::impossible;
use typed_parts::integer;
use typed_parts::is_direct;
use typed_parts::is_null;
use typed_parts::last_member;
use typed_parts::logical;
use typed_parts::may_qualify;
use typed_parts::member;
use typed_parts::name;
use typed_parts::named;
use typed_parts::only_in_parameter;
use typed_parts::opened;
use typed_parts::placed;
use typed_parts::postfix_form;
use typed_parts::prefix_form;
use typed_parts::size_of;
use typed_parts::specifiers_at;
use typed_parts::star;
use typed_parts::step;
use typed_parts::string;
use typed_parts::subscript;
use typed_parts::type_name_at;
use typed_parts::unary;
use typed_parts::violated;
use typed_parts::worded;
use typed_tree::Path;
use typed_tree::TypedExp;

/// The type of an expression and what it is (C11 6.5).
#[cycle(walk)]
pub fn expr(w: &mut Walker<'_>, e: &Expr) -> Result<TypedExp, WalkStop> {
    match e {
        Expr::Name(at, n) => name(w, *at, *n),
        Expr::Integer(at, text) => integer(w, *at, text.as_slice()),
        Expr::Character(at, text) => character(w, *at, text.as_slice()),
        Expr::Literals(at, texts) => string(w, *at, texts),
        Expr::Parentheses(_, inner) => expr(w, inner),
        Expr::Index(..)
        | Expr::Call(..)
        | Expr::Member(..)
        | Expr::Arrow(..)
        | Expr::Postfix(..)
        | Expr::CompoundLiteral(..) => postfix(w, e),
        Expr::Prefix(..)
        | Expr::Unary(..)
        | Expr::SizeofExpr(..)
        | Expr::SizeofType(..)
        | Expr::AlignofType(..)
        | Expr::Cast(..) => prefixed(w, e),
        Expr::Binary(..)
        | Expr::Logical(..)
        | Expr::Conditional(..)
        | Expr::Assign(..)
        | Expr::Comma(..) => infixed(w, e),
    }
}

/// A postfix expression (C11 6.5.2).
#[cycle(walk)]
fn postfix(w: &mut Walker<'_>, e: &Expr) -> Result<TypedExp, WalkStop> {
    match e {
        Expr::Index(at, a, i) => {
            let a = expr(w, a)?;
            let i = expr(w, i)?;
            subscript(w, *at, a, i)
        }
        Expr::Call(at, f, es) => {
            let f = expr(w, f)?;
            let arguments = exprs(w, es)?;
            call(w, *at, f, arguments, es)
        }
        Expr::Member(at, of, n) => {
            let of = expr(w, of)?;
            member(w, *at, of, *n)
        }
        Expr::Arrow(at, of, n) => {
            let of = expr(w, of)?;
            arrow(w, *at, of, *n)
        }
        Expr::Postfix(at, of, op) => {
            let place = expr(w, of)?;
            step(w, *at, expr_at(of), postfix_form(*op), place)
        }
        Expr::CompoundLiteral(at, t, items, _) => {
            let ty = type_name(w, t)?;
            compound_literal(w, *at, ty, items)
        }
        _ => Err(impossible()),
    }
}

/// A unary expression or a cast (C11 6.5.3, 6.5.4).
#[cycle(walk)]
fn prefixed(w: &mut Walker<'_>, e: &Expr) -> Result<TypedExp, WalkStop> {
    match e {
        Expr::Prefix(at, op, of) => {
            let place = expr(w, of)?;
            step(w, *at, expr_at(of), prefix_form(*op), place)
        }
        Expr::Unary(at, op, of) => {
            let x = expr(w, of)?;
            unary(w, *at, expr_at(of), *op, x)
        }
        Expr::SizeofExpr(at, of) => {
            let ty = unevaluated(w, of)?;
            size_of(w, *at, expr_at(of), ty.of)
        }
        Expr::SizeofType(at, t) => {
            let ty = unevaluated_type(w, t)?;
            size_of(w, *at, type_name_at(t)?, ty.of)
        }
        Expr::AlignofType(at, t) => {
            let ty = unevaluated_type(w, t)?;
            align_of(w, *at, type_name_at(t)?, ty.of)
        }
        Expr::Cast(at, t, of) => {
            let ty = type_name(w, t)?;
            let x = expr(w, of)?;
            cast(w, *at, ty.of, x)
        }
        _ => Err(impossible()),
    }
}

/// An expression with an operator between its operands (C11 6.5.5 to 6.5.17).
#[cycle(walk)]
fn infixed(w: &mut Walker<'_>, e: &Expr) -> Result<TypedExp, WalkStop> {
    match e {
        Expr::Binary(at, op, a, b) => {
            let x = expr(w, a)?;
            let y = expr(w, b)?;
            binary(w, *at, *op, x, y, (a, b))
        }
        Expr::Logical(at, op, a, b) => {
            let a = expr(w, a)?;
            let b = expr(w, b)?;
            logical(w, *at, *op, a, b)
        }
        Expr::Conditional(at, test, a, b) => {
            let test = expr(w, test)?;
            let x = expr(w, a)?;
            let y = expr(w, b)?;
            conditional(w, *at, test, x, y, (a, b))
        }
        Expr::Assign(at, op, place, value) => {
            let to = expr(w, place)?;
            let x = expr(w, value)?;
            assign(w, *at, *op, to, x, value)
        }
        Expr::Comma(at, a, b) => {
            let a = expr(w, a)?;
            let b = expr(w, b)?;
            comma(w, *at, a, b)
        }
        _ => Err(impossible()),
    }
}

/// The arguments of a call (C11 6.5.2.2).
#[cycle(walk)]
fn exprs(w: &mut Walker<'_>, es: &[Expr]) -> Result<Vec<Operand>, WalkStop> {
    let mut arguments = Vec::new(w.alloc);
    for e in es {
        let exp = expr(w, e)?;
        let null = is_null(w, e, &exp);
        arguments.push(Operand {
            exp,
            null,
            register: false,
        })?;
    }
    Ok(arguments)
}

/// The type of an operand of `sizeof`, which is not evaluated (C11 6.5.3.4p2).
#[cycle(walk)]
fn unevaluated(w: &mut Walker<'_>, e: &Expr) -> Result<QualType, WalkStop> {
    let before = w.evaluation;
    w.evaluation = Evaluation::Unevaluated;
    let exp = expr(w, e)?;
    w.evaluation = before;
    Ok(exp.ty())
}

/// The type that a type name names as the operand of `sizeof` or `_Alignof`, where nothing is evaluated (C11 6.5.3.4p2, p3).
#[cycle(walk)]
fn unevaluated_type(w: &mut Walker<'_>, t: &TypeName) -> Result<QualType, WalkStop> {
    let before = w.evaluation;
    w.evaluation = Evaluation::Unevaluated;
    let ty = type_name(w, t)?;
    w.evaluation = before;
    Ok(ty)
}

/// The type that a type name names (C11 6.7.7).
#[cycle(walk)]
pub fn type_name(w: &mut Walker<'_>, t: &TypeName) -> Result<QualType, WalkStop> {
    let base = specifiers(w, &t.specifiers, Behind::Declarators)?;
    let mut ds = Vec::new(w.alloc);
    derivations(w, &t.declarator, Role::Ordinary, &mut ds)?;
    built(w, type_name_at(t)?, base, &ds)
}

/// The type that specifiers and qualifiers name (C11 6.7.2), and what they declare.
#[cycle(walk)]
pub fn specifiers(
    w: &mut Walker<'_>,
    ss: &[Specifier],
    behind: Behind,
) -> Result<QualType, WalkStop> {
    for s in ss {
        match s {
            Specifier::Members(at, _, _, ms) => {
                let a = opened(w, ss)?;
                members(w, a, ms)?;
                return closed(w, ss, *at, a);
            }
            Specifier::Enumerators(at, _, es, _) => {
                let a = opened(w, ss)?;
                enumerators(w, a, es)?;
                return closed(w, ss, *at, a);
            }
            Specifier::Storage(..)
            | Specifier::Basic(..)
            | Specifier::Qualifier(..)
            | Specifier::Function(..)
            | Specifier::TypedefName(..)
            | Specifier::Tag(..) => {}
        }
    }
    worded(w, ss, behind)
}

/// The members of a struct or union (C11 6.7.2.1).
#[cycle(walk)]
fn members(w: &mut Walker<'_>, a: AggId, ms: &[MemberDeclaration]) -> Result<(), WalkStop> {
    let last = last_member(ms);
    for m in ms {
        member_declaration(w, a, last, m)?;
    }
    Ok(())
}

/// A declaration among members. The token of the last member is known.
#[cycle(walk)]
fn member_declaration(
    w: &mut Walker<'_>,
    a: AggId,
    last: Option<u32>,
    m: &MemberDeclaration,
) -> Result<(), WalkStop> {
    match m {
        MemberDeclaration::Members(ss, ds) => {
            if ds.is_empty() {
                return anonymous(w, a, ss);
            }
            let base = specifiers(w, ss, Behind::Declarators)?;
            for d in ds {
                member_declarator(w, a, last, base, d)?;
            }
            Ok(())
        }
        MemberDeclaration::StaticAssert(s) => static_assert(w, s),
    }
}

/// A declaration among members without declarators (C11 6.7.2.1p13).
#[cycle(walk)]
fn anonymous(w: &mut Walker<'_>, a: AggId, ss: &[Specifier]) -> Result<(), WalkStop> {
    let ms = anonymous_body(ss)?;
    let ty = specifiers(w, ss, Behind::Declarators)?;
    add_anonymous(w, a, ss, ms, ty)
}

/// A declarator among members.
#[cycle(walk)]
fn member_declarator(
    w: &mut Walker<'_>,
    a: AggId,
    last: Option<u32>,
    base: QualType,
    d: &MemberDeclarator,
) -> Result<(), WalkStop> {
    let mut ds = Vec::new(w.alloc);
    match d {
        MemberDeclarator::Plain(d) => {
            derivations(w, d, Role::Ordinary, &mut ds)?;
            let Some(n) = named(d) else {
                return Err(impossible());
            };
            let ty = built(w, n.at, base, &ds)?;
            add_member(w, a, last, n, ty)
        }
        MemberDeclarator::BitField(d, width) => {
            let Some(at) = expr_at(width).checked_sub(1) else {
                return Err(impossible());
            };
            derivations(w, d, Role::Ordinary, &mut ds)?;
            built(w, name_or(d, at), base, &ds)?;
            Err(WalkStop::At(at, Fault::Excluded(Feature::BitField)))
        }
    }
}

/// The token of a declarator's identifier, or else another.
fn name_or(d: &Declarator, at: u32) -> u32 {
    match named(d) {
        Some(n) => n.at,
        None => at,
    }
}

/// The enumerators of an enum (C11 6.7.2.2).
#[cycle(walk)]
fn enumerators(w: &mut Walker<'_>, a: AggId, es: &[Enumerator]) -> Result<(), WalkStop> {
    for e in es {
        enumerator(w, a, e)?;
    }
    Ok(())
}

/// An enumerator, whose scope begins behind it (C11 6.2.1p7).
#[cycle(walk)]
fn enumerator(w: &mut Walker<'_>, a: AggId, e: &Enumerator) -> Result<(), WalkStop> {
    let value = match &e.value {
        Some(x) => {
            let typed = expr(w, x)?;
            Some(constant_value(w, expr_at(x), &typed)?)
        }
        None => None,
    };
    let name = NewName::of(e.name, w.names);
    placed(e.at, w.declarer.enumerator(a, name, value, &mut w.types))
}

/// A static assertion (C11 6.7.10).
#[cycle(walk)]
pub fn static_assert(w: &mut Walker<'_>, s: &StaticAssert) -> Result<(), WalkStop> {
    let condition = expr(w, &s.condition)?;
    let _message = bytes_of(w, s.message_at, &s.message)?;
    if constant_value(w, expr_at(&s.condition), &condition)? == 0 {
        return Err(violated(s.at, Code::Assertion));
    }
    Ok(())
}

/// The derivations of a declarator in the order of the text (C11 6.7.6): what stands nearer to the name comes first.
#[cycle(walk)]
pub fn derivations(
    w: &mut Walker<'_>,
    d: &Declarator,
    role: Role,
    into: &mut Vec<Derivation>,
) -> Result<(), WalkStop> {
    match d {
        Declarator::Name(..) | Declarator::Absent(_) => Ok(()),
        Declarator::Parentheses(_, inner) => derivations(w, inner, role, into),
        Declarator::Pointer(_, qs, inner) => {
            derivations(w, inner, role, into)?;
            into.push(Derivation::Pointer(qualifiers(qs)))?;
            Ok(())
        }
        Declarator::Array(_, inner, b) => {
            derivations(w, inner, role, into)?;
            let brackets = bound(w, b, may_qualify(role, inner))?;
            into.push(Derivation::Array(brackets))?;
            Ok(())
        }
        Declarator::Function(_, inner, ps, variadic) => {
            derivations(w, inner, role, into)?;
            w.declarer.enter()?;
            let types = parameters(w, ps, company(ps, *variadic))?;
            into.push(Derivation::Function(types, prototype(*variadic)))?;
            left_behind(w, role, inner)
        }
        Declarator::Identifiers(_, inner, _) => {
            derivations(w, inner, role, into)?;
            w.declarer.enter()?;
            into.push(Derivation::Function(Vec::new(w.alloc), Prototype::Absent))?;
            left_behind(w, role, inner)
        }
    }
}

/// Leaves the scope of a list of parameters, unless it is a defined function's own (C11 6.2.1p4).
fn left_behind(w: &mut Walker<'_>, role: Role, inner: &Declarator) -> Result<(), WalkStop> {
    if role == Role::Definition && is_direct(inner) {
        return Ok(());
    }
    w.declarer.leave()?;
    Ok(())
}

/// The prototype that a list of parameters is (C11 6.7.6.3p9).
fn prototype(variadic: bool) -> Prototype {
    if variadic {
        Prototype::Variadic
    } else {
        Prototype::Fixed
    }
}

/// Whether the parameters of a list stand alone.
fn company(ps: &[Parameter], variadic: bool) -> Company {
    if ps.len() == 1 && !variadic {
        Company::Alone
    } else {
        Company::Others
    }
}

/// What stands between the brackets of an array declarator, which may have qualifiers and `static` in the outermost array of a parameter
/// alone (C11 6.7.6.2).
#[cycle(walk)]
fn bound(w: &mut Walker<'_>, b: &ArrayBound, allowed: bool) -> Result<Brackets, WalkStop> {
    match b {
        ArrayBound::Unspecified(at, qs) => Ok(Brackets {
            bound: None,
            at: *at,
            quals: bracket_quals(allowed, *at, qs)?,
        }),
        ArrayBound::Star(at, qs) => {
            bracket_quals(allowed, *at, qs)?;
            Err(star(*at, qs))
        }
        ArrayBound::Size(at, qs, e) => {
            let quals = bracket_quals(allowed, *at, qs)?;
            let typed = expr(w, e)?;
            Ok(Brackets {
                bound: Some(bound_value(w, expr_at(e), &typed)?),
                at: expr_at(e),
                quals,
            })
        }
        ArrayBound::StaticSize(at, qs, e) | ArrayBound::SizeStatic(at, qs, e) => {
            only_in_parameter(allowed, *at)?;
            let typed = expr(w, e)?;
            Ok(Brackets {
                bound: Some(bound_value(w, expr_at(e), &typed)?),
                at: expr_at(e),
                quals: qualifiers(qs),
            })
        }
    }
}

/// The adjusted types of the parameters of a list (C11 6.7.6.3): none for a list that is `void` alone.
#[cycle(walk)]
fn parameters(
    w: &mut Walker<'_>,
    ps: &[Parameter],
    company: Company,
) -> Result<Vec<QualType>, WalkStop> {
    let mut types = Vec::new(w.alloc);
    for p in ps {
        if let Some(ty) = parameter(w, p, company)? {
            types.push(ty)?;
        }
    }
    Ok(types)
}

/// A parameter, which is in scope behind its declarator (C11 6.2.1p7).
#[cycle(walk)]
fn parameter(
    w: &mut Walker<'_>,
    p: &Parameter,
    company: Company,
) -> Result<Option<QualType>, WalkStop> {
    let first = specifiers_at(&p.specifiers)?;
    let heading = placed(first, heading_of(&p.specifiers, Position::Parameter))?;
    let base = specifiers(w, &p.specifiers, Behind::Declarators)?;
    let mut ds = Vec::new(w.alloc);
    derivations(w, &p.declarator, Role::Parameter, &mut ds)?;
    declared_parameter(w, p, base, &ds, heading, company)
}

/// The initialiser of an object (C11 6.7.9).
pub fn initialiser(
    w: &mut Walker<'_>,
    storage: Storage,
    ty: QualType,
    x: &Init,
) -> Result<Filled, WalkStop> {
    let mut filling = Filling::new(w.alloc, storage);
    match x {
        Init::Expr(e) => whole(w, &mut filling, ty, e)?,
        Init::Braces(_, items, _) => {
            let root = Path::new(w.alloc);
            braces(w, &mut filling, &root, 0, ty, items)?;
        }
    }
    filling.finished(init_at(x))
}

/// An initialiser without braces (C11 6.7.9p11, p13, p14).
fn whole(
    w: &mut Walker<'_>,
    filling: &mut Filling,
    ty: QualType,
    e: &Expr,
) -> Result<(), WalkStop> {
    if is_character_array(&w.types, ty) {
        if let Some((at, texts)) = literals(e) {
            let root = Path::new(w.alloc);
            return put_literals(w, filling, &root, ty, at, texts);
        }
    }
    let x = expr(w, e)?;
    put_whole(w, filling, ty, e, x)
}

/// A brace list for an object, whose path and number are given (C11 6.7.9p11, p14, p16).
#[cycle(walk)]
fn braces(
    w: &mut Walker<'_>,
    filling: &mut Filling,
    path: &Path,
    object: u32,
    ty: QualType,
    items: &[InitItem],
) -> Result<(), WalkStop> {
    if is_character_array(&w.types, ty) {
        if let Some((at, texts)) = only_string(items) {
            return put_literals(w, filling, path, ty, at, texts);
        }
    }
    match composite_of(&w.types, ty) {
        Some(of) => list(w, filling, path, Level::new(of, object), items),
        None => scalar_list(w, filling, path, ty, items),
    }
}

/// The items of a brace list for an array, struct or union: all its bytes become zero first (C11 6.7.9p16, p21).
#[cycle(walk)]
fn list(
    w: &mut Walker<'_>,
    filling: &mut Filling,
    path: &Path,
    outermost: Level,
    items: &[InitItem],
) -> Result<(), WalkStop> {
    let whole = SmallVec::from_slice(w.alloc, path.as_slice())?;
    filling.zero(whole)?;
    let mut levels = Levels::new(w.alloc, outermost)?;
    let mut reached = 0;
    for x in items {
        item(w, filling, &mut levels, path, x)?;
        reached = levels.reached(reached);
    }
    filling.reached = reached;
    Ok(())
}

/// An item of a brace list (C11 6.7.9p17).
#[cycle(walk)]
fn item(
    w: &mut Walker<'_>,
    filling: &mut Filling,
    levels: &mut Levels,
    base: &Path,
    x: &InitItem,
) -> Result<(), WalkStop> {
    let mut place = Place {
        base,
        designated: None,
        item: item_at(x),
    };
    place.designated = designators(w, filling, levels, place, &x.designators)?;
    match &x.init {
        Init::Braces(_, items, _) => {
            let ty = chosen(w, filling, levels, place)?;
            not_flexible(&w.types, ty, place.item)?;
            let object = renew(filling, levels)?;
            let path = levels.path(w.alloc, base)?;
            braces(w, filling, &path, object, ty, items)
        }
        Init::Expr(e) => expression_item(w, filling, levels, place, e),
    }
}

/// An item that is an expression.
#[cycle(walk)]
fn expression_item(
    w: &mut Walker<'_>,
    filling: &mut Filling,
    levels: &mut Levels,
    place: Place,
    e: &Expr,
) -> Result<(), WalkStop> {
    if let Some((_, texts)) = literals(e) {
        return put_string_item(w, filling, levels, place, e, texts);
    }
    let x = expr(w, e)?;
    put_item(w, filling, levels, place, e, x)
}

/// The designators of an item: the part that they name, if there are some (C11 6.7.9p6, p7).
#[cycle(walk)]
fn designators(
    w: &mut Walker<'_>,
    filling: &mut Filling,
    levels: &mut Levels,
    place: Place,
    ds: &[Designator],
) -> Result<Option<Designated>, WalkStop> {
    if !ds.is_empty() {
        levels.restart();
    }
    let mut place = place;
    for d in ds {
        let part = designator(w, filling, levels, place, d)?;
        place.designated = Some(part);
    }
    Ok(place.designated)
}

/// A designator, in the part that those before it name. The part that it names.
#[cycle(walk)]
fn designator(
    w: &mut Walker<'_>,
    filling: &mut Filling,
    levels: &mut Levels,
    place: Place,
    d: &Designator,
) -> Result<Designated, WalkStop> {
    match d {
        Designator::Index(at, e) => {
            let x = expr(w, e)?;
            let v = constant_value(w, expr_at(e), &x)?;
            let flexible = enter_designated(w, filling, levels, place, *at)?;
            let ty = choose_element(w, filling, levels, place.base, *at, v)?;
            Ok(Designated { ty, flexible })
        }
        Designator::Member(at, n) => {
            let flexible = enter_designated(w, filling, levels, place, *at)?;
            let ty = choose_named(w, filling, levels, place.base, *at, *n)?;
            Ok(Designated { ty, flexible })
        }
    }
}

/// Refuses a designator, which a scalar has no part for, behind its index (C11 6.7.9p6, p7).
#[cycle(walk)]
fn no_part(w: &mut Walker<'_>, d: &Designator) -> Result<(), WalkStop> {
    if let Designator::Index(_, e) = d {
        let x = expr(w, e)?;
        constant_value(w, expr_at(e), &x)?;
    }
    Err(violated(designator_at(d), Code::Initialiser))
}

/// A brace list for a scalar: one item without designators (C11 6.7.9p11).
#[cycle(walk)]
fn scalar_list(
    w: &mut Walker<'_>,
    filling: &mut Filling,
    path: &Path,
    ty: QualType,
    items: &[InitItem],
) -> Result<(), WalkStop> {
    let mut given = Given::Nothing;
    for x in items {
        scalar_item(w, filling, path, ty, given, x)?;
        given = Given::Value;
    }
    Ok(())
}

/// What a brace list has given a scalar so far.
#[derive(Clone, Copy, PartialEq, Eq)]
enum Given {
    Nothing,
    Value,
}

/// An item of a brace list for a scalar.
#[cycle(walk)]
fn scalar_item(
    w: &mut Walker<'_>,
    filling: &mut Filling,
    path: &Path,
    ty: QualType,
    given: Given,
    x: &InitItem,
) -> Result<(), WalkStop> {
    if let [first, ..] = x.designators.as_slice() {
        return no_part(w, first);
    }
    match &x.init {
        Init::Expr(e) => {
            let typed = expr(w, e)?;
            if given == Given::Value {
                return Err(violated(expr_at(e), Code::Initialiser));
            }
            let path = SmallVec::from_slice(w.alloc, path.as_slice())?;
            put_converted(w, filling, path, ty, e, typed)
        }
        Init::Braces(at, items, _) => {
            if given == Given::Value {
                return Err(violated(*at, Code::Initialiser));
            }
            scalar_list(w, filling, path, ty, items)
        }
    }
}

/// A compound literal of a type (C11 6.5.2.5).
#[cycle(walk)]
fn compound_literal(
    w: &mut Walker<'_>,
    at: u32,
    ty: QualType,
    items: &[InitItem],
) -> Result<TypedExp, WalkStop> {
    literal_type(w, at, ty)?;
    let mut filling = Filling::new(w.alloc, literal_storage(w));
    let root = Path::new(w.alloc);
    braces(w, &mut filling, &root, 0, ty, items)?;
    let filled = filling.finished(list_at(items)?)?;
    literal_place(w, at, ty, filled)
}
