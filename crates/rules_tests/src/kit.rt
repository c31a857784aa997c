use cast_rules::Operand;
use cil_base::{Abi, AggId, EntityId, IntKind, NameId, RuleStop, TypeId};
use layout_lp64::LayoutStop;
use std::alloc::Global;
use type_graph::{AggKind, Member, Members, QualType, Quals, unqualified};
use typed_tree::TypedExp;
use unit_types::Types;

/// What the making of a type gives; the tests' types fit.
pub(crate) fn made<T>(r: Result<T, LayoutStop>) -> Result<T, RuleStop> {
    match r {
        Ok(x) => Ok(x),
        Err(_) => Err(RuleStop::Memory),
    }
}

/// The types of one unit, in a box.
pub(crate) fn no_types(alloc: Global) -> Result<Box<Types>, RuleStop> {
    Ok(Box::new(alloc, Types::new(alloc, Abi::Lp64))?)
}

/// Operands of which rows are made.
#[derive(Clone, Copy, Debug)]
pub(crate) enum Sample {
    /// `_Bool`, `char`, `short`, `int`, `unsigned`, `long`, `unsigned long`
    Bool,
    Char,
    Short,
    Int,
    UInt,
    Long,
    ULong,
    /// `enum e`
    Enum,
    /// `const int`
    ConstInt,
    /// `0`, a null pointer constant
    Zero,
    /// `(void *)0`, a null pointer constant
    Null,
    /// `int *`, `const int *`, `char *`, `void *`, `const void *`
    ToInt,
    ToConstInt,
    ToChar,
    ToVoid,
    ToConstVoid,
    /// `struct open *`, where that struct is incomplete
    ToOpen,
    /// `int (*)(char)`, `int (*)()`
    ToFunction,
    ToUnprototyped,
    /// `int (*)[3]`, `int (*)[]`
    ToRow,
    ToOpenRow,
    /// `enum e *`
    ToEnum,
    /// `int [3]`, `int (char)`
    Row,
    Function,
    /// `struct { int x; char y[2]; }`, another like it, one of it that is const, and one with a const member
    Record,
    Other,
    ConstRecord,
    Fixed,
    /// `struct open`
    Open,
    /// `void`
    Void,
}

/// The types of the samples, in their order.
#[derive(Drop)]
pub(crate) struct Kit {
    types: Vec<QualType>,
    pub(crate) record: AggId,
}

const CONST: Quals = Quals {
    constant: true,
    restricted: false,
};

/// A type with `const`.
fn constant(of: TypeId) -> QualType {
    QualType { quals: CONST, of }
}

/// A pointer to a type.
fn pointer(t: &mut Types, to: QualType) -> Result<QualType, RuleStop> {
    Ok(unqualified(made(t.pointer(to))?))
}

/// A complete struct with members of these types.
fn record(alloc: Global, t: &mut Types, types: &[QualType]) -> Result<AggId, RuleStop> {
    let a = made(t.add_agg(AggKind::Struct, None))?;
    let mut members = Vec::new(alloc);
    for ty in types {
        members.push(Member::named(NameId(ty.of.0), *ty, 0))?;
    }
    made(t.complete(a, Members::new(members)))?;
    Ok(a)
}

/// The type `int ( char )`, or `int ( )`.
fn function(alloc: Global, t: &mut Types, proto: bool) -> Result<QualType, RuleStop> {
    let int = made(t.int(IntKind::Int))?;
    let char = made(t.int(IntKind::Char))?;
    let mut params = Vec::new(alloc);
    if proto {
        params.push(char)?;
    }
    Ok(unqualified(made(t.function(int, params, proto, false))?))
}

impl Kit {
    /// The samples' types.
    pub(crate) fn new(alloc: Global, t: &mut Types) -> Result<Kit, RuleStop> {
        let mut types = Vec::new(alloc);
        add_integers(t, &mut types)?;
        add_pointers(alloc, t, &mut types)?;
        let record = add_records(alloc, t, &mut types)?;
        let void = made(t.void())?;
        types.push(unqualified(void))?;
        Ok(Kit { types, record })
    }

    /// The type of a sample.
    pub(crate) fn ty(&self, s: Sample) -> Result<QualType, RuleStop> {
        match self.types.get(s as usize) {
            Some(q) => Ok(*q),
            None => Err(RuleStop::Memory),
        }
    }

    /// A sample as an operand: a constant, a void value, or a place.
    pub(crate) fn operand(&self, alloc: Global, s: Sample) -> Result<Operand, RuleStop> {
        let ty = self.ty(s)?;
        let exp = match s {
            Sample::Zero | Sample::Null => typed_tree::integer(alloc, ty.of, 0)?,
            Sample::Void => void_value(alloc, ty.of)?,
            _ => typed_tree::entity(alloc, ty, EntityId(0))?,
        };
        Ok(Operand {
            exp,
            null: matches!(s, Sample::Zero | Sample::Null),
            register: false,
        })
    }
}

/// A cast to void of some value.
fn void_value(alloc: Global, void: TypeId) -> Result<TypedExp, RuleStop> {
    let inner = typed_tree::integer(alloc, void, 0)?;
    Ok(typed_tree::convert(alloc, void, inner)?)
}

/// The samples from `Bool` to `Zero`.
fn add_integers(t: &mut Types, types: &mut Vec<QualType>) -> Result<(), RuleStop> {
    for kind in [
        IntKind::Bool,
        IntKind::Char,
        IntKind::Short,
        IntKind::Int,
        IntKind::UInt,
        IntKind::Long,
        IntKind::ULong,
    ] {
        types.push(unqualified(made(t.int(kind))?))?;
    }
    let int = made(t.int(IntKind::Int))?;
    let a = made(t.add_agg(AggKind::Enum, None))?;
    let of = made(t.aggregate(a))?;
    add_enumerator(t, a, int)?;
    types.push(unqualified(of))?;
    types.push(constant(int))?;
    types.push(unqualified(int))?;
    Ok(())
}

/// Completes an enum with one enumerator.
fn add_enumerator(t: &mut Types, a: AggId, int: TypeId) -> Result<(), RuleStop> {
    let mut members = Vec::new(t.graph().alloc());
    members.push(Member::named(NameId(0), unqualified(int), 0))?;
    made(t.complete(a, Members::new(members)))
}

/// The samples from `Null` to `Function`.
fn add_pointers(alloc: Global, t: &mut Types, types: &mut Vec<QualType>) -> Result<(), RuleStop> {
    let int = made(t.int(IntKind::Int))?;
    let char = made(t.int(IntKind::Char))?;
    let void = made(t.void())?;
    let a = made(t.add_agg(AggKind::Struct, None))?;
    let open = made(t.aggregate(a))?;
    let prototyped = function(alloc, t, true)?;
    let unprototyped = function(alloc, t, false)?;
    let row = unqualified(made(t.array(unqualified(int), Some(3)))?);
    let open_row = unqualified(made(t.array(unqualified(int), None))?);
    let enumerated = unqualified(made(t.aggregate(AggId(0)))?);
    for to in [
        unqualified(void),
        unqualified(int),
        constant(int),
        unqualified(char),
        unqualified(void),
        constant(void),
        unqualified(open),
        prototyped,
        unprototyped,
        row,
        open_row,
        enumerated,
    ] {
        types.push(pointer(t, to)?)?;
    }
    types.push(row)?;
    types.push(prototyped)?;
    Ok(())
}

/// The samples from `Record` to `Open`.
fn add_records(alloc: Global, t: &mut Types, types: &mut Vec<QualType>) -> Result<AggId, RuleStop> {
    let int = unqualified(made(t.int(IntKind::Int))?);
    let char = made(t.int(IntKind::Char))?;
    let text = unqualified(made(t.array(unqualified(char), Some(2)))?);
    let first = record(alloc, t, &[int, text])?;
    let second = record(alloc, t, &[int])?;
    let fixed = record(alloc, t, &[constant(int.of), int])?;
    let plain = made(t.aggregate(first))?;
    let other = made(t.aggregate(second))?;
    let fixed = made(t.aggregate(fixed))?;
    let open = made(t.aggregate(AggId(1)))?;
    for q in [
        unqualified(plain),
        unqualified(other),
        constant(plain),
        unqualified(fixed),
        unqualified(open),
    ] {
        types.push(q)?;
    }
    Ok(first)
}
