use crate::nulls::{integer_constant, is_integer};
use crate::stops::{WalkStop, impossible, placed, violated};
use crate::walker::Walker;
use c_tree::{Declarator, Parameter, Qualifier};
use cil_base::{Code, Fault, Feature, NameId, RuleStop};
use const_eval::is_constant_form;
use decl_types::{Prototype, qualifiers};
use type_graph::{QualType, Quals};
use typed_tree::TypedExp;

/// What a declarator belongs to.
#[derive(Clone, Copy, PartialEq, Eq)]
pub enum Role {
    /// A declared name, a member or a type name.
    Ordinary,
    /// A parameter: its outermost array may have qualifiers and `static` between its brackets (C11 6.7.6.2p1).
    Parameter,
    /// The function of a function definition: the scope of its own parameters stays open for the body (C11 6.2.1p4).
    Definition,
}

/// One derivation of a declarator (C11 6.7.6), whose expressions and lists are walked.
#[derive(Drop)]
pub enum Derivation {
    /// `*` with its qualifiers (6.7.6.1).
    Pointer(Quals),
    /// `[ .. ]` (6.7.6.2).
    Array(Brackets),
    /// A list of parameters, by their adjusted types (6.7.6.3p5); `( )` and a list of identifiers have none (6.7.6.3p3).
    Function(Vec<QualType>, Prototype),
}

/// What stands between the brackets of an array declarator (C11 6.7.6.2).
#[derive(Clone, Copy)]
pub struct Brackets {
    /// The value of the bound, if there is one.
    pub bound: Option<i128>,
    /// The bound's first token.
    pub at: u32,
    /// The qualifiers, which go to the pointer that a parameter becomes (6.7.6.3p7).
    pub quals: Quals,
}

/// A declared identifier, with the number of its token.
#[derive(Clone, Copy)]
pub struct DeclaredName {
    pub at: u32,
    pub name: NameId,
}

/// The identifier that a declarator declares, if it declares one.
pub fn named(d: &Declarator) -> Option<DeclaredName> {
    match d {
        Declarator::Name(at, name) => Some(DeclaredName {
            at: *at,
            name: *name,
        }),
        Declarator::Absent(_) => None,
        Declarator::Parentheses(_, inner) => named(inner),
        Declarator::Pointer(_, _, inner) => named(inner),
        Declarator::Array(_, inner, _) => named(inner),
        Declarator::Function(_, inner, _, _) => named(inner),
        Declarator::Identifiers(_, inner, _) => named(inner),
    }
}

/// Whether a declarator has no derivation.
pub fn is_direct(d: &Declarator) -> bool {
    match d {
        Declarator::Name(..) | Declarator::Absent(_) => true,
        Declarator::Parentheses(_, inner) => is_direct(inner),
        Declarator::Pointer(..)
        | Declarator::Array(..)
        | Declarator::Function(..)
        | Declarator::Identifiers(..) => false,
    }
}

/// Whether an array declarator with its inner one is the outermost of a parameter.
pub fn may_qualify(role: Role, inner: &Declarator) -> bool {
    role == Role::Parameter && is_direct(inner)
}

/// Refuses what stands behind an opening bracket and may stand there in the outermost array of a parameter alone (C11 6.7.6.2p1).
pub fn only_in_parameter(allowed: bool, bracket: u32) -> Result<(), WalkStop> {
    if allowed {
        return Ok(());
    }
    match bracket.checked_add(1) {
        Some(at) => Err(violated(at, Code::Specifiers)),
        None => Err(impossible()),
    }
}

/// The qualifiers behind an opening bracket.
pub fn bracket_quals(allowed: bool, bracket: u32, qs: &[Qualifier]) -> Result<Quals, WalkStop> {
    if !qs.is_empty() {
        only_in_parameter(allowed, bracket)?;
    }
    Ok(qualifiers(qs))
}

/// The refusal of `*` between brackets, behind qualifiers (C11 6.7.6.2p4).
pub fn star(bracket: u32, qs: &[Qualifier]) -> WalkStop {
    let mut at = bracket.checked_add(1);
    for _q in qs {
        at = match at {
            Some(at) => at.checked_add(1),
            None => None,
        };
    }
    match at {
        Some(at) => WalkStop::At(at, Fault::Excluded(Feature::VariableArray)),
        None => impossible(),
    }
}

/// The value of an array's bound, whose first token is known: an integer constant expression (C11 6.7.6.2p1). Another expression of
/// integer type that is not made of constants alone makes a variable length array.
pub fn bound_value(w: &Walker<'_>, at: u32, e: &TypedExp) -> Result<i128, WalkStop> {
    if let Some(v) = integer_constant(&w.types, e) {
        return Ok(v);
    }
    if !is_integer(&w.types, e.ty().of) || is_constant_form(e, &w.types) {
        Err(violated(at, Code::NotConstant))
    } else {
        Err(WalkStop::At(at, Fault::Excluded(Feature::VariableArray)))
    }
}

/// The value of an integer constant expression whose first token is known (C11 6.6p6).
pub fn constant_value(w: &Walker<'_>, at: u32, e: &TypedExp) -> Result<i128, WalkStop> {
    match integer_constant(&w.types, e) {
        Some(v) => Ok(v),
        None => Err(violated(at, Code::NotConstant)),
    }
}

/// The type that a derivation makes of a type.
fn derived(
    w: &mut Walker<'_>,
    at: u32,
    of: QualType,
    d: &Derivation,
) -> Result<QualType, WalkStop> {
    match d {
        Derivation::Pointer(quals) => { placed(at, decl_types::pointer(of, *quals, &mut w.types)) }
        Derivation::Array(brackets) => {
            match decl_types::array(of, brackets.bound, &mut w.types) {
                Err(RuleStop::Bad(Fault::Constraint(Code::ArraySize))) => {
                    Err(violated(brackets.at, Code::ArraySize))
                }
                other => placed(at, other),
            }
        }
        Derivation::Function(params, prototype) => placed(
            at,
            decl_types::function(w.alloc, of, params, *prototype, &mut w.types),
        ),
    }
}

/// The type that a declarator gives to the type of its specifiers: its derivations, of which the innermost comes first, are applied from
/// the outermost on (C11 6.7.6). Faults stand at the given token.
pub fn built(
    w: &mut Walker<'_>,
    at: u32,
    base: QualType,
    derivations: &[Derivation],
) -> Result<QualType, WalkStop> {
    let mut ty = base;
    for d in derivations.iter().rev() {
        ty = derived(w, at, ty, d)?;
    }
    Ok(ty)
}

/// The list with which a declarator's identifier is called (C11 6.7.6.3): its first derivation.
#[derive(Clone, Copy)]
pub enum OwnList<'a> {
    Parameters(&'a [Parameter]),
    Identifiers(&'a [NameId]),
    /// The first derivation is no list, or there is none.
    None,
}

/// The own list of a declarator.
pub fn own_list(d: &Declarator) -> OwnList<'_> {
    match d {
        Declarator::Name(..) | Declarator::Absent(_) => OwnList::None,
        Declarator::Parentheses(_, inner) => own_list(inner),
        Declarator::Pointer(_, _, inner) => own_list(inner),
        Declarator::Array(_, inner, _) => own_list(inner),
        Declarator::Function(_, inner, ps, _) => {
            if is_direct(inner) {
                OwnList::Parameters(ps)
            } else {
                own_list(inner)
            }
        }
        Declarator::Identifiers(_, inner, names) => {
            if is_direct(inner) {
                OwnList::Identifiers(names)
            } else {
                own_list(inner)
            }
        }
    }
}
