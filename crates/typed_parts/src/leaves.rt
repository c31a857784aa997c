use crate::stops::{WalkStop, sized, violated};
use crate::walker::{Evaluation, Walker};
use cil_base::{Bytes, Code, IntKind, NameId};
use decl_types::Declaring;
use literal_values::{character_value, integer_value, string_bytes};
use type_graph::{QualType, unqualified};
use typed_tree::{Definition, Path, TypedExp, initialiser, string_part};

/// An integer constant of a kind.
fn constant(w: &mut Walker<'_>, at: u32, kind: IntKind, v: i128) -> Result<TypedExp, WalkStop> {
    let ty = sized(at, w.types.int(kind))?;
    Ok(typed_tree::integer(w.alloc, ty, v)?)
}

/// An identifier in an expression (C11 6.5.1p2).
pub fn name(w: &mut Walker<'_>, at: u32, n: NameId) -> Result<TypedExp, WalkStop> {
    let Some(d) = w.declarer.find(n) else {
        return Err(violated(at, Code::Undeclared));
    };
    match d.what {
        Declaring::Typedef => Err(violated(at, Code::Undeclared)),
        Declaring::Enumerator(v) => constant(w, at, IntKind::Int, v as i128),
        Declaring::Local(l) => Ok(typed_tree::local(w.alloc, d.ty, l)?),
        Declaring::Entity(e) => {
            w.note(e, at)?;
            if w.evaluation == Evaluation::Evaluated {
                w.declarer.mark_used(e);
            }
            Ok(typed_tree::entity(w.alloc, d.ty, e)?)
        }
    }
}

/// An integer constant (C11 6.4.4.1).
pub fn integer(w: &mut Walker<'_>, at: u32, text: &[u8]) -> Result<TypedExp, WalkStop> {
    match integer_value(text, w.types.graph().abi()) {
        Some((kind, v)) => constant(w, at, kind, v),
        None => Err(violated(at, Code::IntegerRange)),
    }
}

/// A character constant (C11 6.4.4.4).
pub fn character(w: &mut Walker<'_>, at: u32, text: &[u8]) -> Result<TypedExp, WalkStop> {
    match character_value(w.alloc, text)? {
        Some(v) => constant(w, at, IntKind::Int, v),
        None => Err(violated(at, Code::IntegerRange)),
    }
}

/// The place of a literal in an operand that is not evaluated, of which only the type counts: no object stands for it.
pub fn unevaluated_place(w: &mut Walker<'_>, ty: QualType) -> Result<TypedExp, WalkStop> {
    let nothing = initialiser(Vec::new(w.alloc));
    Ok(typed_tree::literal(w.alloc, ty, 0, nothing)?)
}

/// The type of the array that a string has: an array of char (C11 6.4.5p6).
fn string_type(w: &mut Walker<'_>, at: u32, len: usize) -> Result<QualType, WalkStop> {
    let char = sized(at, w.types.int(IntKind::Char))?;
    let array = sized(at, w.types.array(unqualified(char), Some(len as u64)))?;
    Ok(unqualified(array))
}

/// The definition of the array of a string.
fn string_definition(w: &Walker<'_>, bytes: Vec<u8>) -> Result<Definition, WalkStop> {
    let mut steps = Vec::new(w.alloc);
    steps.push(string_part(Path::new(w.alloc), Bytes::new(bytes)))?;
    Ok(Definition::Initialised(initialiser(steps)))
}

/// The array of a string literal whose bytes are known (C11 6.4.5p6): each is an object of its own.
pub fn string_of(w: &mut Walker<'_>, at: u32, bytes: Vec<u8>) -> Result<TypedExp, WalkStop> {
    let ty = string_type(w, at, bytes.len())?;
    if w.evaluation == Evaluation::Unevaluated {
        return unevaluated_place(w, ty);
    }
    let definition = string_definition(w, bytes)?;
    let e = w.static_literal(at, ty, false, definition)?;
    Ok(typed_tree::entity(w.alloc, ty, e)?)
}

/// The bytes of string literals that stand one behind the other, the first at a token, and the zero byte behind them (C11 6.4.5p6).
pub fn bytes_of(w: &Walker<'_>, at: u32, texts: &[Bytes]) -> Result<Vec<u8>, WalkStop> {
    match string_bytes(w.alloc, texts)? {
        Some(bytes) => Ok(bytes),
        None => Err(violated(at, Code::IntegerRange)),
    }
}

/// String literals that stand one behind the other (C11 6.4.5).
pub fn string(w: &mut Walker<'_>, at: u32, texts: &[Bytes]) -> Result<TypedExp, WalkStop> {
    let bytes = bytes_of(w, at, texts)?;
    string_of(w, at, bytes)
}
