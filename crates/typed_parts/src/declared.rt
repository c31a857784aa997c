use crate::derivations::{DeclaredName, Derivation, built, named};
use crate::stops::{WalkStop, placed, violated};
use crate::tokens::{specifiers_at, tag_at};
use crate::walker::Walker;
use c_tree::{MemberDeclaration, MemberDeclarator, Parameter, Qualifier, Specifier};
use cil_base::{AggId, Code, Fault, NameId, RuleStop};
use decl_types::{Behind, Declared, Form, Heading, MemberAt, NewName};
use type_graph::{PLAIN, QualType, Quals};
use unit_types::Class;

/// The token of `restrict` among specifiers.
fn restrict_at(ss: &[Specifier]) -> Option<u32> {
    for s in ss {
        if let Specifier::Qualifier(at, Qualifier::Restrict) = s {
            return Some(*at);
        }
    }
    None
}

/// The token at which a fault of specifiers stands: the tag, `restrict`, or the first token (C11 6.7.2, 6.7.2.3, 6.7.3).
fn fault_at(ss: &[Specifier], fault: Fault) -> Result<u32, WalkStop> {
    let found = match fault {
        Fault::Constraint(Code::Tag) | Fault::Constraint(Code::Reserved) => tag_at(ss),
        Fault::Constraint(Code::Restrict) => restrict_at(ss),
        _ => None,
    };
    match found {
        Some(at) => Ok(at),
        None => specifiers_at(ss),
    }
}

/// The answer of a rule over specifiers.
fn placed_in<T>(ss: &[Specifier], r: Result<T, RuleStop>) -> Result<T, WalkStop> {
    match r {
        Ok(x) => Ok(x),
        Err(RuleStop::Bad(fault)) => Err(WalkStop::At(fault_at(ss, fault)?, fault)),
        Err(RuleStop::Memory) => Err(WalkStop::Memory),
    }
}

/// The type of specifiers without a body (C11 6.7.2).
pub fn worded(w: &mut Walker<'_>, ss: &[Specifier], behind: Behind) -> Result<QualType, WalkStop> {
    placed_in(ss, w.declarer.words(ss, behind, w.names, &mut w.types))
}

/// The struct, union or enum of specifiers with a body, before its body (C11 6.7.2.1, 6.7.2.2).
pub fn opened(w: &mut Walker<'_>, ss: &[Specifier]) -> Result<AggId, WalkStop> {
    placed_in(ss, w.declarer.open_body(ss, w.names, &mut w.types))
}

/// The token of a fault behind a body, whose specifier begins with a token: `restrict` beside it, or that one (C11 6.7.2.1p8, 6.7.3p2).
fn behind_body(ss: &[Specifier], at: u32, fault: Fault) -> u32 {
    let found = match fault {
        Fault::Constraint(Code::Restrict) => restrict_at(ss),
        _ => None,
    };
    match found {
        Some(word) => word,
        None => at,
    }
}

/// The type of a struct, union or enum behind its body, whose specifier begins with a token.
pub fn closed(
    w: &mut Walker<'_>,
    ss: &[Specifier],
    at: u32,
    a: AggId,
) -> Result<QualType, WalkStop> {
    match w.declarer.close_body(a, w.names, &mut w.made, &mut w.types) {
        Ok(ty) => Ok(ty),
        Err(RuleStop::Bad(fault)) => Err(WalkStop::At(behind_body(ss, at, fault), fault)),
        Err(RuleStop::Memory) => Err(WalkStop::Memory),
    }
}

/// The token of the last name that the declarators of a member declaration declare.
fn last_name(ds: &[MemberDeclarator]) -> Option<u32> {
    match ds {
        [.., MemberDeclarator::Plain(d)] => Some(named(d)?.at),
        _ => None,
    }
}

/// The token of the last member of a body, where it has a name.
pub fn last_member(ms: &[MemberDeclaration]) -> Option<u32> {
    let mut last = None;
    for m in ms {
        if let MemberDeclaration::Members(_, ds) = m {
            last = last_name(ds);
        }
    }
    last
}

/// Adds a member to a struct or union.
pub fn add_member(
    w: &mut Walker<'_>,
    a: AggId,
    last: Option<u32>,
    n: DeclaredName,
    ty: QualType,
) -> Result<(), WalkStop> {
    let at = if last == Some(n.at) {
        MemberAt::Last
    } else {
        MemberAt::Inner
    };
    let name = NewName::of(n.name, w.names);
    placed(n.at, w.declarer.member(a, name, ty, at, &w.types))
}

/// The body of a struct or union without a tag among specifiers (C11 6.7.2.1p13).
fn tagless_body(ss: &[Specifier]) -> Option<&[MemberDeclaration]> {
    for s in ss {
        if let Specifier::Members(_, _, None, ms) = s {
            return Some(ms);
        }
    }
    None
}

/// The body of the anonymous struct or union that a line of members without declarators is; any other such line is refused before what stands in it
/// (C11 6.7.2.1p2, p13).
pub fn anonymous_body(ss: &[Specifier]) -> Result<&[MemberDeclaration], WalkStop> {
    match tagless_body(ss) {
        Some(ms) => Ok(ms),
        None => Err(violated(specifiers_at(ss)?, Code::Specifiers)),
    }
}

/// The token of a declarator among members that declares a name.
fn member_named(ds: &[MemberDeclarator], n: NameId) -> Option<u32> {
    for d in ds {
        let found = match d {
            MemberDeclarator::Plain(d) => named(d),
            MemberDeclarator::BitField(d, _) => named(d),
        };
        if let Some(found) = found {
            if found.name == n {
                return Some(found.at);
            }
        }
    }
    None
}

/// The first token among members at which a name is offered (C11 6.7.2.1p13).
#[cycle(offers)]
fn offered_in(ms: &[MemberDeclaration], n: NameId) -> Option<u32> {
    for m in ms {
        if let Some(at) = offered(m, n) {
            return Some(at);
        }
    }
    None
}

/// The token of a member declaration at which a name is offered.
#[cycle(offers)]
fn offered(m: &MemberDeclaration, n: NameId) -> Option<u32> {
    let MemberDeclaration::Members(ss, ds) = m else {
        return None;
    };
    if !ds.is_empty() {
        return member_named(ds, n);
    }
    for s in ss {
        if let Specifier::Members(_, _, None, ms) = s {
            return offered_in(ms, n);
        }
    }
    None
}

/// Adds an anonymous struct or union, with its body, to a struct or union (C11 6.7.2.1p13).
pub fn add_anonymous(
    w: &mut Walker<'_>,
    a: AggId,
    ss: &[Specifier],
    ms: &[MemberDeclaration],
    ty: QualType,
) -> Result<(), WalkStop> {
    let first = specifiers_at(ss)?;
    match w.declarer.anonymous(a, ty, &w.types) {
        Err(RuleStop::Bad(Fault::Constraint(Code::Redeclared))) => {
            Err(violated(repeated_at(w, ms, first), Code::Redeclared))
        }
        other => placed(first, other),
    }
}

/// The token of the name that an anonymous member offers again.
fn repeated_at(w: &Walker<'_>, ms: &[MemberDeclaration], first: u32) -> u32 {
    match w.declarer.repeated() {
        Some(n) => match offered_in(ms, n) {
            Some(at) => at,
            None => first,
        },
        None => first,
    }
}

/// Where the faults of a declaration stand: at its specifiers, at its name, or at its initialiser.
#[derive(Clone, Copy)]
pub struct Places {
    pub specifiers: u32,
    pub name: u32,
    /// The initialiser's first token, where there is one.
    pub init: u32,
}

/// The token of a fault of a declaration.
fn place_among(places: Places, fault: Fault) -> u32 {
    match fault {
        Fault::Constraint(Code::Specifiers) => places.specifiers,
        Fault::Constraint(Code::Initialiser) => places.init,
        _ => places.name,
    }
}

/// The answer of a rule over a declaration.
fn placed_among<T>(places: Places, r: Result<T, RuleStop>) -> Result<T, WalkStop> {
    match r {
        Ok(x) => Ok(x),
        Err(RuleStop::Bad(fault)) => Err(WalkStop::At(place_among(places, fault), fault)),
        Err(RuleStop::Memory) => Err(WalkStop::Memory),
    }
}

/// Declares a name (C11 6.7).
pub fn declare(
    w: &mut Walker<'_>,
    places: Places,
    n: NameId,
    ty: QualType,
    heading: Heading,
    form: Form,
) -> Result<Declared, WalkStop> {
    let n = NewName::of(n, w.names);
    placed_among(
        places,
        w.declarer.declare(n, ty, heading, form, &mut w.types),
    )
}

/// Whether other parameters, or `...`, stand in the list of a parameter.
#[derive(Clone, Copy, PartialEq, Eq)]
pub enum Company {
    Alone,
    Others,
}

/// The qualifiers between the brackets of a parameter's outermost array.
fn bracketed(ds: &[Derivation]) -> Quals {
    match ds {
        [Derivation::Array(brackets), ..] => brackets.quals,
        _ => PLAIN,
    }
}

/// Whether a parameter without a name is the `void` of an empty list (C11 6.7.6.3p10).
fn is_nothing(
    w: &Walker<'_>,
    base: QualType,
    ds: &[Derivation],
    heading: Heading,
    company: Company,
) -> bool {
    let void = match w.types.class(base.of) {
        Class::Void => true,
        Class::Int(_) | Class::Ptr(_) | Class::Array(..) | Class::Func { .. } | Class::Agg(..) => {
            false
        }
    };
    void && base.quals == PLAIN
        && ds.is_empty()
        && heading.storage.is_none()
        && company == Company::Alone
}

/// The adjusted type of a parameter (C11 6.7.6.3p7, p8), which is declared where it has a name. None for the `void` of an empty list.
pub fn declared_parameter(
    w: &mut Walker<'_>,
    p: &Parameter,
    base: QualType,
    ds: &[Derivation],
    heading: Heading,
    company: Company,
) -> Result<Option<QualType>, WalkStop> {
    let first = specifiers_at(&p.specifiers)?;
    let Some(n) = named(&p.declarator) else {
        if is_nothing(w, base, ds, heading, company) {
            return Ok(None);
        }
        let ty = built(w, first, base, ds)?;
        let ty = placed(
            first,
            decl_types::parameter(ty, bracketed(ds), &mut w.types),
        )?;
        return Ok(Some(ty));
    };
    let ty = built(w, n.at, base, ds)?;
    let places = Places {
        specifiers: first,
        name: n.at,
        init: n.at,
    };
    let form = Form::Parameter(bracketed(ds));
    let d = declare(w, places, n.name, ty, heading, form)?;
    Ok(Some(d.ty))
}
