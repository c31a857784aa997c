use c_places::init_at;
use c_tree::{Declaration, Init, InitDeclarator, Specifier};
use cast_exprs::{derivations, initialiser, specifiers, static_assert};
use cil_base::{EntityId, LocalId};
use decl_types::{
    Behind, Declared, Declaring, Defined, Form, Heading, Position, heading_of, is_constant,
};
use init_parts::{Filled, Storage};
use type_graph::QualType;
use typed_parts::{
    DeclaredName, Places, Role, WalkStop, Walker, built, declare, impossible, named, placed,
    specifiers_at,
};
use typed_tree::{Definition, TypedStmt};
use unit_types::{Class, Types};

/// What the declarators of a declaration have in common.
#[derive(Clone, Copy)]
struct Base {
    /// The first token of the specifiers.
    at: u32,
    heading: Heading,
    ty: QualType,
}

/// A declaration (C11 6.7). What it does when it is reached goes behind the other statements of its block.
pub(crate) fn declaration(
    w: &mut Walker<'_>,
    position: Position,
    d: &Declaration,
    out: &mut Vec<TypedStmt>,
) -> Result<(), WalkStop> {
    match d {
        Declaration::Declares(_, ss, ds) => {
            let base = base_of(w, position, ss, ds.is_empty())?;
            for d in ds {
                init_declarator(w, base, d, out)?;
            }
            Ok(())
        }
        Declaration::StaticAssert(s) => static_assert(w, s),
    }
}

/// What the specifiers of a declaration say.
fn base_of(
    w: &mut Walker<'_>,
    position: Position,
    ss: &[Specifier],
    alone: bool,
) -> Result<Base, WalkStop> {
    let at = specifiers_at(ss)?;
    let heading = placed(at, heading_of(ss, position))?;
    let behind = if alone {
        Behind::Nothing
    } else {
        Behind::Declarators
    };
    let ty = specifiers(w, ss, behind)?;
    Ok(Base { at, heading, ty })
}

/// A declarator with its initialiser, if it has one.
fn init_declarator(
    w: &mut Walker<'_>,
    base: Base,
    d: &InitDeclarator,
    out: &mut Vec<TypedStmt>,
) -> Result<(), WalkStop> {
    let mut ds = Vec::new(w.alloc);
    derivations(w, &d.declarator, Role::Ordinary, &mut ds)?;
    let Some(n) = named(&d.declarator) else {
        return Err(impossible());
    };
    let ty = built(w, n.at, base.ty, &ds)?;
    let (form, init) = match &d.init {
        Some(x) => (Form::Initialised, init_at(x)),
        None => (Form::Plain, n.at),
    };
    let places = Places {
        specifiers: base.at,
        name: n.at,
        init,
    };
    let declared = declare(w, places, n.name, ty, base.heading, form)?;
    match declared.what {
        Declaring::Typedef | Declaring::Enumerator(_) => Ok(()),
        Declaring::Local(l) => local(w, n, l, declared.ty, &d.init, out),
        Declaring::Entity(e) => global(w, n, e, declared, &d.init),
    }
}

/// Whether a type is an array of unknown bound.
fn is_unbounded(t: &Types, ty: QualType) -> bool {
    match t.class(ty.of) {
        Class::Array(_, None) => true,
        Class::Array(_, Some(_))
        | Class::Void
        | Class::Int(_)
        | Class::Ptr(_)
        | Class::Func { .. }
        | Class::Agg(..) => false,
    }
}

/// The initialiser of a declared object, which gives an array of unknown bound its bound (C11 6.7.9p22).
fn initialised(
    w: &mut Walker<'_>,
    n: DeclaredName,
    storage: Storage,
    ty: QualType,
    x: &Init,
) -> Result<Filled, WalkStop> {
    let filled = initialiser(w, storage, ty, x)?;
    if is_unbounded(&w.types, ty) {
        placed(
            n.at,
            w.declarer.set_bound(n.name, filled.reached, &mut w.types),
        )?;
    }
    Ok(filled)
}

/// An object with automatic storage duration.
fn local(
    w: &mut Walker<'_>,
    n: DeclaredName,
    l: LocalId,
    ty: QualType,
    init: &Option<Init>,
    out: &mut Vec<TypedStmt>,
) -> Result<(), WalkStop> {
    match init {
        Some(x) => {
            let filled = initialised(w, n, Storage::Automatic, ty, x)?;
            out.push(typed_tree::declaration(l, Some(filled.init)))?;
        }
        None => out.push(typed_tree::declaration(l, None))?,
    }
    Ok(())
}

/// An object with static storage duration, or a function.
fn global(
    w: &mut Walker<'_>,
    n: DeclaredName,
    e: EntityId,
    declared: Declared,
    init: &Option<Init>,
) -> Result<(), WalkStop> {
    w.note(e, n.at)?;
    let constant = is_constant(declared.ty, &w.types);
    match init {
        Some(x) => {
            let filled = initialised(w, n, Storage::Static, declared.ty, x)?;
            w.define(e, n.at, constant, Definition::Initialised(filled.init))
        }
        None => without_initialiser(w, n, e, constant),
    }
}

/// A declaration without initialiser: it defines an object that has no other definition (C11 6.9.2p2).
fn without_initialiser(
    w: &mut Walker<'_>,
    n: DeclaredName,
    e: EntityId,
    constant: bool,
) -> Result<(), WalkStop> {
    let Some(entity) = w.declarer.entity(e) else {
        return Err(impossible());
    };
    if entity.defined == Defined::Not || is_defined(w, e) {
        return Ok(());
    }
    w.define(e, n.at, constant, Definition::Zero)
}

/// Whether a definition is noted for an object or a function.
fn is_defined(w: &Walker<'_>, e: EntityId) -> bool {
    match w.sites.get(e.0 as usize) {
        Some(site) => site.defined.is_some(),
        None => false,
    }
}
