use crate::builder::{Builder, type_at};
use crate::functions::{Code, OF_APPLY, OF_MAIN, OF_OLD, OF_STOP, OF_TWICE, body_of};
use crate::objects::{ELEMENTS, ITSELF, LEAST, NUMBER, NUMBERS, SIXTEEN, Scalar, TO_TWICE, image};
use crate::stop::Stop;
use crate::types::{self, Made, TYPES, add_types};
use cil_base::{EntityId, TypeId};
use cil_tree::GlobalDef;
use std::alloc::Global;

// The places of globals that others name.
pub(crate) const GRID: EntityId = EntityId(4);

pub(crate) const FIRST: EntityId = EntityId(5);

pub(crate) const HANDLER: EntityId = EntityId(6);

pub(crate) const PICK: EntityId = EntityId(13);

pub(crate) const OLD: EntityId = EntityId(14);

pub(crate) const PUT: EntityId = EntityId(15);

pub(crate) const TWICE: EntityId = EntityId(16);

pub(crate) const APPLY: EntityId = EntityId(17);

/// What a global is.
enum Def {
    Declared,
    Zero,
    Image(&'static [Scalar]),
    Body(Code),
}

/// A global: its name, the place of its type, and whether it is internal.
pub(crate) struct Row {
    name: &'static [u8],
    ty: usize,
    internal: bool,
    def: Def,
}

/// The globals of the sample.
const GLOBALS: &[Row] = &[
    Row {
        name: b"__builtin_memset",
        ty: types::MEMSET,
        internal: false,
        def: Def::Declared,
    },
    Row {
        name: b"zero",
        ty: types::INT,
        internal: false,
        def: Def::Zero,
    },
    Row {
        name: b"quiet",
        ty: types::ULLONG,
        internal: true,
        def: Def::Zero,
    },
    Row {
        name: b"least",
        ty: types::CHAR,
        internal: false,
        def: Def::Image(LEAST),
    },
    Row {
        name: b"grid",
        ty: types::GRID,
        internal: false,
        def: Def::Image(ELEMENTS),
    },
    Row {
        name: b"first",
        ty: types::NODE,
        internal: false,
        def: Def::Image(ITSELF),
    },
    Row {
        name: b"handler",
        ty: types::TO_UNARY,
        internal: true,
        def: Def::Image(TO_TWICE),
    },
    Row {
        name: b"address",
        ty: types::TO_VOID,
        internal: false,
        def: Def::Image(SIXTEEN),
    },
    Row {
        name: b"word",
        ty: types::WORD,
        internal: false,
        def: Def::Image(NUMBER),
    },
    Row {
        name: b"rows",
        ty: types::ROWS,
        internal: false,
        def: Def::Declared,
    },
    Row {
        name: b"plain",
        ty: types::PLAIN,
        internal: false,
        def: Def::Declared,
    },
    Row {
        name: b"open",
        ty: types::OPEN,
        internal: false,
        def: Def::Declared,
    },
    Row {
        name: b"numbers",
        ty: types::KINDS,
        internal: true,
        def: Def::Image(NUMBERS),
    },
    Row {
        name: b"pick",
        ty: types::PICK,
        internal: false,
        def: Def::Declared,
    },
    Row {
        name: b"old",
        ty: types::OLD,
        internal: false,
        def: Def::Body(OF_OLD),
    },
    Row {
        name: b"put",
        ty: types::PUT,
        internal: false,
        def: Def::Declared,
    },
    Row {
        name: b"twice",
        ty: types::UNARY,
        internal: true,
        def: Def::Body(OF_TWICE),
    },
    Row {
        name: b"apply",
        ty: types::APPLY,
        internal: true,
        def: Def::Body(OF_APPLY),
    },
    Row {
        name: b"main",
        ty: types::MAIN,
        internal: false,
        def: Def::Body(OF_MAIN),
    },
    Row {
        name: b"stop",
        ty: types::STOP,
        internal: true,
        def: Def::Body(OF_STOP),
    },
];

/// Adds a global.
fn add_global(b: &mut Builder, types: &[TypeId], row: &Row) -> Result<(), Stop> {
    let name = b.name(row.name)?;
    let ty = type_at(types, row.ty);
    match &row.def {
        Def::Declared => b.global(name, ty, row.internal, GlobalDef::Declared),
        Def::Zero => b.global(name, ty, row.internal, GlobalDef::Zero),
        Def::Image(scalars) => {
            let items = image(b.alloc, scalars)?;
            b.global(name, ty, row.internal, GlobalDef::Image(items))
        }
        Def::Body(code) => {
            let body = body_of(b, types, code)?;
            b.global(name, ty, row.internal, GlobalDef::Body(body))
        }
    }
}

fn add_globals(b: &mut Builder, types: &[TypeId], rows: &[Row]) -> Result<(), Stop> {
    for row in rows {
        add_global(b, types, row)?;
    }
    Ok(())
}

fn built_text(b: &mut Builder, types: &[Made], globals: &[Row]) -> Result<Vec<u8>, Stop> {
    let mut made = Vec::new(b.alloc);
    add_types(b, &mut made, types)?;
    add_globals(b, &made, globals)?;
    b.text()
}

/// The text of the program with these types and globals.
pub(crate) fn text_of(alloc: Global, types: &[Made], globals: &[Row]) -> Result<Vec<u8>, Stop> {
    let mut b = Builder::new(alloc);
    built_text(&mut b, types, globals)
}

/// The text of the sample.
pub(crate) fn sample_text(alloc: Global) -> Result<Vec<u8>, Stop> {
    text_of(alloc, TYPES, GLOBALS)
}
