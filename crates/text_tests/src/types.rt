use crate::builder::{Builder, Form, Part, type_at};
use crate::stop::Stop;
use cil_base::{AggId, IntKind, TypeId};
use std::alloc::Global;
use type_graph::AggKind;

/// A type, by the places of other types before it in its list.
pub(crate) enum Made {
    Void,
    Int(IntKind),
    Pointer(usize),
    Array(usize, Option<u64>),
    /// A function type: its form, its result and its parameters.
    Function(Form, usize, &'static [usize]),
    /// A new incomplete aggregate.
    Tag(AggKind, &'static [u8]),
    /// An aggregate that gets its members.
    Complete(AggId, &'static [Part]),
}

// The places of types in the list of the sample.
pub(crate) const INT: usize = 0;

const COLOR: usize = 1;

pub(crate) const NODE: usize = 2;

pub(crate) const WORD: usize = 3;

const HIDDEN: usize = 4;

pub(crate) const KINDS: usize = 5;

const BOOL: usize = 6;

pub(crate) const CHAR: usize = 7;

const SCHAR: usize = 8;

pub(crate) const UCHAR: usize = 9;

const SHORT: usize = 10;

const USHORT: usize = 11;

const UINT: usize = 12;

const LONG: usize = 13;

pub(crate) const ULONG: usize = 14;

pub(crate) const LLONG: usize = 15;

pub(crate) const ULLONG: usize = 16;

const BYTES: usize = 17;

pub(crate) const TO_NODE: usize = 18;

const VOID: usize = 23;

pub(crate) const TO_VOID: usize = 24;

pub(crate) const MEMSET: usize = 25;

const ROW: usize = 26;

pub(crate) const GRID: usize = 27;

pub(crate) const UNARY: usize = 28;

pub(crate) const TO_UNARY: usize = 29;

pub(crate) const MAIN: usize = 30;

const TO_MAIN: usize = 31;

const THREE: usize = 32;

pub(crate) const ROWS: usize = 33;

pub(crate) const OLD: usize = 34;

pub(crate) const PLAIN: usize = 35;

pub(crate) const OPEN: usize = 36;

pub(crate) const TO_ROW: usize = 37;

pub(crate) const TEXT: usize = 38;

pub(crate) const PICK: usize = 39;

pub(crate) const TO_HIDDEN: usize = 40;

pub(crate) const PUT: usize = 41;

pub(crate) const APPLY: usize = 42;

pub(crate) const TO_INT: usize = 43;

pub(crate) const STOP: usize = 44;

/// The types of the sample, whose aggregates have the numbers 0 to 4 in the order of their tags.
pub(crate) const TYPES: &[Made] = &[
    Made::Int(IntKind::Int),
    Made::Tag(AggKind::Enum, b"color"),
    Made::Tag(AggKind::Struct, b"node"),
    Made::Tag(AggKind::Union, b"word"),
    Made::Tag(AggKind::Struct, b"hidden"),
    Made::Tag(AggKind::Struct, b"kinds"),
    Made::Int(IntKind::Bool),
    Made::Int(IntKind::Char),
    Made::Int(IntKind::SChar),
    Made::Int(IntKind::UChar),
    Made::Int(IntKind::Short),
    Made::Int(IntKind::UShort),
    Made::Int(IntKind::UInt),
    Made::Int(IntKind::Long),
    Made::Int(IntKind::ULong),
    Made::Int(IntKind::LLong),
    Made::Int(IntKind::ULLong),
    Made::Array(UCHAR, Some(3)),
    Made::Pointer(NODE),
    Made::Complete(
        AggId(0),
        &[
            Part::Enumerator(b"red", INT, 0),
            Part::Enumerator(b"blue", INT, -5),
            Part::Enumerator(b"dark", INT, -2147483648),
        ],
    ),
    Made::Complete(
        AggId(1),
        &[
            Part::Member(b"hue", COLOR),
            Part::Member(b"bytes", BYTES),
            Part::Member(b"next", TO_NODE),
        ],
    ),
    Made::Complete(
        AggId(2),
        &[Part::Member(b"number", LONG), Part::Member(b"node", NODE)],
    ),
    // a member of each integer type
    Made::Complete(
        AggId(4),
        &[
            Part::Member(b"a", BOOL),
            Part::Member(b"b", CHAR),
            Part::Member(b"c", SCHAR),
            Part::Member(b"d", UCHAR),
            Part::Member(b"e", SHORT),
            Part::Member(b"f", USHORT),
            Part::Member(b"g", INT),
            Part::Member(b"h", UINT),
            Part::Member(b"i", LONG),
            Part::Member(b"j", ULONG),
            Part::Member(b"k", LLONG),
            Part::Member(b"l", ULLONG),
        ],
    ),
    Made::Void,
    Made::Pointer(VOID),
    Made::Function(Form::Prototype, TO_VOID, &[TO_VOID, INT, ULONG]),
    Made::Array(INT, Some(3)),
    Made::Array(ROW, Some(2)),
    Made::Function(Form::Prototype, INT, &[INT]),
    Made::Pointer(UNARY),
    Made::Function(Form::Prototype, INT, &[]),
    Made::Pointer(MAIN),
    Made::Array(TO_MAIN, Some(3)),
    Made::Pointer(THREE),
    Made::Function(Form::Unprototyped, INT, &[]),
    Made::Pointer(OLD),
    Made::Array(INT, None),
    Made::Pointer(ROW),
    Made::Pointer(CHAR),
    Made::Function(Form::Prototype, TO_ROW, &[INT, TEXT]),
    Made::Pointer(HIDDEN),
    Made::Function(Form::Variadic, VOID, &[TO_HIDDEN]),
    Made::Function(Form::Prototype, INT, &[TO_UNARY, INT]),
    Made::Pointer(INT),
    Made::Function(Form::Prototype, VOID, &[]),
];

/// Types at places of a list.
fn types_at(alloc: Global, types: &[TypeId], places: &[usize]) -> Result<Vec<TypeId>, Stop> {
    let mut found = Vec::new(alloc);
    for place in places {
        found.push(type_at(types, *place))?;
    }
    Ok(found)
}

fn function(
    b: &mut Builder,
    types: &[TypeId],
    form: Form,
    ret: usize,
    params: &[usize],
) -> Result<TypeId, Stop> {
    let params = types_at(b.alloc, types, params)?;
    b.function(form, type_at(types, ret), &params)
}

/// The type of a row.
fn type_of_row(b: &mut Builder, types: &[TypeId], row: &Made) -> Result<TypeId, Stop> {
    match row {
        Made::Void => b.void(),
        Made::Int(kind) => b.int(*kind),
        Made::Pointer(of) => b.pointer(type_at(types, *of)),
        Made::Array(of, bound) => b.array(type_at(types, *of), *bound),
        Made::Function(form, ret, params) => function(b, types, *form, *ret, params),
        Made::Tag(kind, tag) => b.tag(*kind, tag),
        Made::Complete(a, parts) => b.complete(*a, types, parts),
    }
}

/// Adds the types of a list.
pub(crate) fn add_types(
    b: &mut Builder,
    types: &mut Vec<TypeId>,
    rows: &[Made],
) -> Result<(), Stop> {
    for row in rows {
        let t = type_of_row(b, types, row)?;
        types.push(t)?;
    }
    Ok(())
}
