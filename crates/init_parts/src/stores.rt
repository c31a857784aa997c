use crate::filling::{
    Filled, Filling, Storage, Wanted, choose, descend, flexible_at, is_character_array,
    is_flexible, next_chosen, settle, wanted_by,
};
use crate::levels::{Composite, Levels, composite_of, has_element};
use c_places::{expr_at, item_at};
use c_tree::{Expr, Init, InitItem};
use cil_base::{Bytes, Code, NameId};
use const_eval::eval;
use decl_types::{MemberPath, is_constant};
use smallvec::SmallVec;
use type_graph::{AggKind, QualType, unqualified};
use typed_parts::{
    Evaluation, WalkStop, Walker, Within, bytes_of, convert, impossible, placed, sized, string_of,
    unevaluated_place, violated,
};
use typed_tree::{
    Definition, Path, Step, TypedExp, TypedLiteral, aggregate_part, constant_part, scalar_part,
    string_part,
};
use unit_types::{Class, Types};

/// The part that designators name (C11 6.7.9p6, p7).
#[derive(Clone, Copy)]
pub struct Designated {
    pub ty: QualType,
    /// Whether it stands in a flexible array member.
    pub flexible: bool,
}

/// Where an item stands: the way to its part, behind the path to the object of its brace list, and the item's first token.
#[derive(Clone, Copy)]
pub struct Place<'a> {
    pub base: &'a Path,
    /// The part that its designators name, if it has some.
    pub designated: Option<Designated>,
    pub item: u32,
}

/// Whether a type is a struct or union.
fn is_record(t: &Types, ty: QualType) -> bool {
    match t.class(ty.of) {
        Class::Agg(AggKind::Struct, _) | Class::Agg(AggKind::Union, _) => true,
        Class::Agg(AggKind::Enum, _)
        | Class::Void
        | Class::Int(_)
        | Class::Ptr(_)
        | Class::Array(..)
        | Class::Func { .. } => false,
    }
}

/// Gives a value of its type to a part; its expression begins with a token.
fn put(
    w: &Walker<'_>,
    filling: &mut Filling,
    path: Path,
    ty: QualType,
    at: u32,
    value: TypedExp,
) -> Result<(), WalkStop> {
    filling.counted(1)?;
    match filling.storage {
        Storage::Static => match eval(&value, &w.types) {
            Some(c) => filling.add(constant_part(path, c)),
            None => Err(violated(at, Code::NotConstant)),
        },
        Storage::Automatic => {
            if is_record(&w.types, ty) {
                filling.add(aggregate_part(path, value))
            } else {
                filling.add(scalar_part(path, value))
            }
        }
    }
}

/// Gives an expression to a part, converted as by assignment (C11 6.7.9p11, p13).
pub fn put_converted(
    w: &mut Walker<'_>,
    filling: &mut Filling,
    path: Path,
    ty: QualType,
    source: &Expr,
    e: TypedExp,
) -> Result<(), WalkStop> {
    let value = convert(w, ty.of, source, e)?;
    put(w, filling, path, ty, expr_at(source), value)
}

/// Gives an object an expression without braces (C11 6.7.9p11, p13); no array takes one.
pub fn put_whole(
    w: &mut Walker<'_>,
    filling: &mut Filling,
    ty: QualType,
    source: &Expr,
    e: TypedExp,
) -> Result<(), WalkStop> {
    put_converted(w, filling, Path::new(w.alloc), ty, source, e)
}

/// The number of an array's elements, where its bound is known.
fn bound_of(t: &Types, ty: QualType) -> Option<u64> {
    match t.class(ty.of) {
        Class::Array(_, bound) => bound,
        Class::Void | Class::Int(_) | Class::Ptr(_) | Class::Func { .. } | Class::Agg(..) => None,
    }
}

/// The bytes of a string that an array takes: it may lack room for the zero byte alone (C11 6.7.9p14).
fn fitted(mut bytes: Vec<u8>, bound: Option<u64>, item: u32) -> Result<Vec<u8>, WalkStop> {
    let len = bytes.len() as u64;
    match bound {
        Some(count) if count < len => {
            bytes.pop();
            if count < bytes.len() as u64 {
                return Err(violated(item, Code::Initialiser));
            }
            Ok(bytes)
        }
        _ => Ok(bytes),
    }
}

/// Gives an array of characters the bytes of a string, its zero byte included (C11 6.7.9p14).
pub fn put_string(
    w: &Walker<'_>,
    filling: &mut Filling,
    path: &Path,
    ty: QualType,
    item: u32,
    bytes: Vec<u8>,
) -> Result<(), WalkStop> {
    let len = bytes.len() as u64;
    let bytes = fitted(bytes, bound_of(&w.types, ty), item)?;
    filling.counted(len)?;
    filling.reached = len;
    let whole = SmallVec::from_slice(w.alloc, path.as_slice())?;
    filling.zero(whole)?;
    let whole = SmallVec::from_slice(w.alloc, path.as_slice())?;
    filling.add(string_part(whole, Bytes::new(bytes)))
}

/// Gives an array of characters string literals as they are written.
pub fn put_literals(
    w: &Walker<'_>,
    filling: &mut Filling,
    path: &Path,
    ty: QualType,
    at: u32,
    texts: &[Bytes],
) -> Result<(), WalkStop> {
    let bytes = bytes_of(w, at, texts)?;
    put_string(w, filling, path, ty, at, bytes)
}

/// The part that an item initialises before braces that are left out count. None in a flexible array member may be initialised (own).
pub fn chosen(
    w: &Walker<'_>,
    filling: &mut Filling,
    levels: &mut Levels,
    place: Place,
) -> Result<QualType, WalkStop> {
    match place.designated {
        Some(part) => {
            if part.flexible {
                return Err(flexible_at(place.item));
            }
            Ok(part.ty)
        }
        None => next_chosen(w, filling, levels, place.base, place.item),
    }
}

/// Puts an item that is an expression (C11 6.7.9p13, p20).
pub fn put_item(
    w: &mut Walker<'_>,
    filling: &mut Filling,
    levels: &mut Levels,
    place: Place,
    source: &Expr,
    e: TypedExp,
) -> Result<(), WalkStop> {
    let wanted = wanted_by(&w.types, &e);
    let from = chosen(w, filling, levels, place)?;
    let ty = settle(w, filling, levels, place.base, from, wanted, place.item)?;
    if is_record(&w.types, ty) {
        renew(filling, levels)?;
    }
    let path = levels.path(w.alloc, place.base)?;
    put_converted(w, filling, path, ty, source, e)
}

/// Notes that the part on the way has a value as a whole. Its number.
pub fn renew(filling: &mut Filling, levels: &Levels) -> Result<u32, WalkStop> {
    let level = levels.innermost()?;
    filling.renewed(level.object, level.current)
}

/// Puts an item that is a string literal: an array of characters takes its bytes (C11 6.7.9p14), a scalar its address.
pub fn put_string_item(
    w: &mut Walker<'_>,
    filling: &mut Filling,
    levels: &mut Levels,
    place: Place,
    source: &Expr,
    texts: &[Bytes],
) -> Result<(), WalkStop> {
    let at = expr_at(source);
    let bytes = bytes_of(w, at, texts)?;
    let from = chosen(w, filling, levels, place)?;
    let ty = settle(
        w,
        filling,
        levels,
        place.base,
        from,
        Wanted::Characters,
        place.item,
    )?;
    let path = levels.path(w.alloc, place.base)?;
    if is_character_array(&w.types, ty) {
        return put_string(w, filling, &path, ty, place.item, bytes);
    }
    let e = string_of(w, at, bytes)?;
    put_converted(w, filling, path, ty, source, e)
}

/// The string literals that are the one item of a brace list (C11 6.7.9p14).
pub fn only_string(items: &[InitItem]) -> Option<(u32, &[Bytes])> {
    match items {
        [item] => {
            if !item.designators.is_empty() {
                return None;
            }
            string_init(&item.init)
        }
        _ => None,
    }
}

/// The string literals that an initialiser is.
fn string_init(x: &Init) -> Option<(u32, &[Bytes])> {
    match x {
        Init::Expr(e) => literals(e),
        Init::Braces(..) => None,
    }
}

/// The string literals that an expression is.
pub fn literals(e: &Expr) -> Option<(u32, &[Bytes])> {
    match e {
        Expr::Literals(at, texts) => Some((*at, texts)),
        _ => None,
    }
}

/// Goes down into the part on the way, where a designator stands behind the one that named it (C11 6.7.9p7). Whether what is there stands in a
/// flexible array member.
pub fn enter_designated(
    w: &Walker<'_>,
    filling: &mut Filling,
    levels: &mut Levels,
    place: Place,
    at: u32,
) -> Result<bool, WalkStop> {
    let Some(part) = place.designated else {
        return Ok(false);
    };
    match composite_of(&w.types, part.ty) {
        Some(of) => {
            descend(filling, levels, of)?;
            Ok(part.flexible || is_flexible(&w.types, part.ty))
        }
        None => Err(violated(at, Code::Initialiser)),
    }
}

/// The element of an array that a designator names (C11 6.7.9p6).
pub fn choose_element(
    w: &Walker<'_>,
    filling: &mut Filling,
    levels: &mut Levels,
    base: &Path,
    at: u32,
    v: i128,
) -> Result<QualType, WalkStop> {
    let Composite::Array(of, bound) = levels.innermost()?.of else {
        return Err(violated(at, Code::Initialiser));
    };
    match u64::try_from(v) {
        Ok(i) if has_element(bound, i) => {
            choose(w, filling, levels, base, Step::Index(i))?;
            Ok(of)
        }
        _ => Err(violated(at, Code::Initialiser)),
    }
}

/// The path to the member that a designator names (C11 6.7.9p7).
fn designated_path(
    w: &Walker<'_>,
    levels: &Levels,
    at: u32,
    n: NameId,
) -> Result<MemberPath, WalkStop> {
    match levels.innermost()?.of {
        Composite::Struct(a) | Composite::Union(a) => {
            match w.declarer.member_path(a, n, &w.types)? {
                Some(path) => Ok(path),
                None => Err(violated(at, Code::Initialiser)),
            }
        }
        Composite::Array(..) => Err(violated(at, Code::Initialiser)),
    }
}

/// A member on a path: the anonymous one before it is gone down into.
fn choose_member(
    w: &Walker<'_>,
    filling: &mut Filling,
    levels: &mut Levels,
    base: &Path,
    within: Option<QualType>,
    index: u32,
) -> Result<QualType, WalkStop> {
    if let Some(ty) = within {
        match composite_of(&w.types, ty) {
            Some(of) => descend(filling, levels, of)?,
            None => return Err(impossible()),
        }
    }
    let (Composite::Struct(a) | Composite::Union(a)) = levels.innermost()?.of else {
        return Err(impossible());
    };
    let Some(m) = w.types.member(a, index as usize) else {
        return Err(impossible());
    };
    choose(w, filling, levels, base, Step::Field(index))?;
    Ok(m.ty)
}

/// The member of a struct or union that a designator names (C11 6.7.9p7).
pub fn choose_named(
    w: &Walker<'_>,
    filling: &mut Filling,
    levels: &mut Levels,
    base: &Path,
    at: u32,
    n: NameId,
) -> Result<QualType, WalkStop> {
    let path = designated_path(w, levels, at, n)?;
    let mut ty = None;
    for step in path.as_slice() {
        ty = Some(choose_member(w, filling, levels, base, ty, step.index)?);
    }
    match ty {
        Some(ty) => Ok(ty),
        None => Err(impossible()),
    }
}

/// Refuses a compound literal of a function type or an incomplete type, but for an array of unknown bound (C11 6.5.2.5p1).
pub fn literal_type(w: &Walker<'_>, at: u32, ty: QualType) -> Result<(), WalkStop> {
    let fits = match w.types.class(ty.of) {
        Class::Array(of, None) => w.types.is_complete(of.of),
        Class::Array(_, Some(_))
        | Class::Void
        | Class::Int(_)
        | Class::Ptr(_)
        | Class::Func { .. }
        | Class::Agg(..) => w.types.is_complete(ty.of),
    };
    if fits {
        Ok(())
    } else {
        Err(violated(at, Code::Incomplete))
    }
}

/// The type of an object whose initialiser is known: an array of unknown bound gets its bound (C11 6.7.9p22).
fn completed(
    w: &mut Walker<'_>,
    at: u32,
    ty: QualType,
    reached: u64,
) -> Result<QualType, WalkStop> {
    match w.types.class(ty.of) {
        Class::Array(of, None) => {
            let array = sized(at, w.types.array(of, Some(reached)))?;
            Ok(unqualified(array))
        }
        Class::Array(_, Some(_))
        | Class::Void
        | Class::Int(_)
        | Class::Ptr(_)
        | Class::Func { .. }
        | Class::Agg(..) => Ok(ty),
    }
}

/// The first token of the brace list of a compound literal: it stands before that of its first item.
pub fn list_at(items: &[InitItem]) -> Result<u32, WalkStop> {
    match items {
        [first, ..] => match item_at(first).checked_sub(1) {
            Some(at) => Ok(at),
            None => Err(impossible()),
        },
        [] => Err(impossible()),
    }
}

/// The storage duration of a compound literal (C11 6.5.2.5p5).
pub fn literal_storage(w: &Walker<'_>) -> Storage {
    match w.within {
        Within::File => Storage::Static,
        Within::Function => Storage::Automatic,
    }
}

/// The place of a compound literal with its initialiser (C11 6.5.2.5p4, p5).
pub fn literal_place(
    w: &mut Walker<'_>,
    at: u32,
    ty: QualType,
    filled: Filled,
) -> Result<TypedExp, WalkStop> {
    let ty = completed(w, at, ty, filled.reached)?;
    if w.evaluation == Evaluation::Unevaluated {
        return unevaluated_place(w, ty);
    }
    match w.within {
        Within::File => {
            let constant = is_constant(ty, &w.types);
            let definition = Definition::Initialised(filled.init);
            let e = w.static_literal(at, ty, constant, definition)?;
            Ok(typed_tree::entity(w.alloc, ty, e)?)
        }
        Within::Function => {
            let n = placed(at, w.declarer.compound_literal())?;
            w.literals.push(TypedLiteral { ty })?;
            Ok(typed_tree::literal(w.alloc, ty, n, filled.init)?)
        }
    }
}
