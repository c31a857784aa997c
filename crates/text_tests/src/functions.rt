use crate::builder::{Builder, type_at};
use crate::program::{APPLY, FIRST, GRID, HANDLER, OLD, PICK, PUT, TWICE};
use crate::stop::Stop;
use crate::types::{
    INT, LLONG, NODE, TEXT, TO_HIDDEN, TO_INT, TO_NODE, TO_ROW, TO_UNARY, UCHAR, ULONG,
};
use crate::words::{Word, statements};
use cil_base::{BinOp, IntKind, LabelId, TypeId, UnOp};
use cil_tree::{Body, Local};

/// A local: its name, and the place of its type.
struct Named {
    name: &'static [u8],
    ty: usize,
}

/// A function: its locals, of which the first so many are its parameters, its labels, and the words of its statements, in parts.
pub(crate) struct Code {
    params: usize,
    locals: &'static [Named],
    labels: &'static [&'static [u8]],
    parts: &'static [&'static [Word]],
}

// The locals of `main` by their numbers.
const I: u32 = 0;

const U: u32 = 1;

const P: u32 = 2;

const S: u32 = 3;

const F: u32 = 4;

const Q: u32 = 5;

const M: u32 = 6;

const WIDE: u32 = 7;

/// A place becomes zero, and arithmetic.
const ARITHMETIC: &[Word] = &[
    Word::Local(S),
    Word::Zero,
    Word::Local(I),
    Word::Const(IntKind::Int, 8),
    Word::Const(IntKind::Int, 3),
    Word::Bin(BinOp::Mul),
    Word::Const(IntKind::Int, 2),
    Word::Bin(BinOp::Div),
    Word::Const(IntKind::Int, 5),
    Word::Bin(BinOp::Rem),
    Word::Const(IntKind::Int, 4),
    Word::Bin(BinOp::Add),
    Word::Const(IntKind::Int, 1),
    Word::Bin(BinOp::Sub),
    Word::Set,
    Word::Local(I),
    Word::Local(I),
    Word::Value,
    Word::Const(IntKind::Int, 1),
    Word::Bin(BinOp::Shl),
    Word::Const(IntKind::Int, 2),
    Word::Bin(BinOp::Shr),
    Word::Const(IntKind::Int, 3),
    Word::Bin(BinOp::And),
    Word::Local(I),
    Word::Value,
    Word::Const(IntKind::Int, 4),
    Word::Bin(BinOp::Xor),
    Word::Bin(BinOp::Or),
    Word::Set,
];

/// Comparisons and unary operators.
const COMPARISONS: &[Word] = &[
    Word::Local(I),
    Word::Local(I),
    Word::Value,
    Word::Const(IntKind::Int, 1),
    Word::Bin(BinOp::Lt),
    Word::Local(I),
    Word::Value,
    Word::Const(IntKind::Int, 1),
    Word::Bin(BinOp::Gt),
    Word::Bin(BinOp::Eq),
    Word::Local(I),
    Word::Value,
    Word::Const(IntKind::Int, 1),
    Word::Bin(BinOp::Le),
    Word::Local(I),
    Word::Value,
    Word::Const(IntKind::Int, 1),
    Word::Bin(BinOp::Ge),
    Word::Bin(BinOp::And),
    Word::Bin(BinOp::Ne),
    Word::Set,
    Word::Local(I),
    Word::Local(P),
    Word::Value,
    Word::Un(UnOp::Not),
    Word::Un(UnOp::Compl),
    Word::Un(UnOp::Neg),
    Word::Set,
];

/// Constants with each suffix.
const CONSTANTS: &[Word] = &[
    Word::Local(U),
    Word::Const(IntKind::UInt, 7),
    Word::Cast(ULONG),
    Word::Const(IntKind::Int, 2),
    Word::Bin(BinOp::Shl),
    Word::Set,
    Word::Local(U),
    Word::Local(U),
    Word::Value,
    Word::Const(IntKind::ULong, 18446744073709551615),
    Word::Bin(BinOp::Add),
    Word::Set,
    Word::Local(WIDE),
    Word::Const(IntKind::LLong, 5),
    Word::Set,
    Word::Local(WIDE),
    Word::Const(IntKind::ULLong, 6),
    Word::Cast(LLONG),
    Word::Set,
];

/// Pointers to elements of arrays.
const POINTERS: &[Word] = &[
    Word::Local(P),
    Word::Local(I),
    Word::Address,
    Word::Set,
    Word::Local(P),
    Word::Global(GRID),
    Word::Const(IntKind::Int, 1),
    Word::Element,
    Word::Start,
    Word::Const(IntKind::Long, 2),
    Word::Bin(BinOp::Add),
    Word::Set,
    Word::Local(WIDE),
    Word::Local(P),
    Word::Value,
    Word::Global(GRID),
    Word::Const(IntKind::Int, 0),
    Word::Element,
    Word::Start,
    Word::Bin(BinOp::Sub),
    Word::Cast(LLONG),
    Word::Set,
    Word::Local(P),
    Word::Value,
    Word::Pointed,
    Word::Local(I),
    Word::Value,
    Word::Set,
    Word::Local(I),
    Word::Local(P),
    Word::Value,
    Word::Const(IntKind::Long, 1),
    Word::Bin(BinOp::Add),
    Word::Pointed,
    Word::Value,
    Word::Set,
    Word::Local(M),
    Word::Global(GRID),
    Word::Start,
    Word::Set,
];

/// Members of structs.
const MEMBERS: &[Word] = &[
    Word::Local(Q),
    Word::Global(FIRST),
    Word::Address,
    Word::Set,
    Word::Local(Q),
    Word::Value,
    Word::Pointed,
    Word::Field(1),
    Word::Const(IntKind::Int, 2),
    Word::Element,
    Word::Local(I),
    Word::Value,
    Word::Cast(UCHAR),
    Word::Set,
    Word::Local(S),
    Word::Local(Q),
    Word::Value,
    Word::Pointed,
    Word::Value,
    Word::Set,
    Word::Local(S),
    Word::Field(2),
    Word::Local(Q),
    Word::Value,
    Word::Pointed,
    Word::Field(2),
    Word::Value,
    Word::Set,
];

/// Calls whose results are stored.
const STORED_CALLS: &[Word] = &[
    Word::Local(M),
    Word::Local(I),
    Word::Value,
    Word::Const(IntKind::ULong, 0),
    Word::Cast(TEXT),
    Word::CallTo(PICK, 2),
    Word::Local(F),
    Word::Global(TWICE),
    Word::Address,
    Word::Set,
    Word::Local(I),
    Word::Local(I),
    Word::Value,
    Word::CallTo(TWICE, 1),
    Word::Local(I),
    Word::Local(F),
    Word::Value,
    Word::Local(I),
    Word::Value,
    Word::CallTo(APPLY, 2),
    Word::Local(I),
    Word::Local(F),
    Word::Value,
    Word::Local(M),
    Word::Value,
    Word::Pointed,
    Word::Const(IntKind::Int, 0),
    Word::Element,
    Word::Value,
    Word::ThroughTo,
];

/// Calls whose results are not.
const PLAIN_CALLS: &[Word] = &[
    Word::Local(I),
    Word::Value,
    Word::Local(U),
    Word::Value,
    Word::Call(OLD, 2),
    Word::Call(OLD, 0),
    Word::Const(IntKind::ULong, 0),
    Word::Cast(TO_HIDDEN),
    Word::Const(IntKind::Long, 1),
    Word::Call(PUT, 2),
    Word::Global(HANDLER),
    Word::Value,
    Word::Const(IntKind::Int, 3),
    Word::Through,
];

/// `if`
const TESTED: &[Word] = &[
    Word::Local(I),
    Word::Value,
    Word::Const(IntKind::Int, 3),
    Word::Bin(BinOp::Lt),
    Word::Begin,
    Word::Local(I),
    Word::Const(IntKind::Int, 3),
    Word::Set,
    Word::Begin,
    Word::If,
];

/// A loop with a switch and a block.
const LOOPED: &[Word] = &[
    Word::Begin,
    Word::Local(I),
    Word::Value,
    Word::Begin,
    Word::Case(IntKind::Int, -1),
    Word::Case(IntKind::Int, -2147483648),
    Word::Local(I),
    Word::Const(IntKind::Int, 0),
    Word::Set,
    Word::Break,
    Word::Default,
    Word::Goto(LabelId(0)),
    Word::Switch,
    Word::Begin,
    Word::Break,
    Word::Block,
    Word::Loop,
];

/// A label, and the result.
const ENDED: &[Word] = &[
    Word::Label(LabelId(0)),
    Word::Local(U),
    Word::Value,
    Word::Cast(INT),
    Word::Const(IntKind::Int, 256),
    Word::Bin(BinOp::Eq),
    Word::Return,
];

/// `int main ( void )`
pub(crate) const OF_MAIN: Code = Code {
    params: 0,
    locals: &[
        Named {
            name: b"i",
            ty: INT,
        },
        Named {
            name: b"u",
            ty: ULONG,
        },
        Named {
            name: b"p",
            ty: TO_INT,
        },
        Named {
            name: b"s",
            ty: NODE,
        },
        Named {
            name: b"f",
            ty: TO_UNARY,
        },
        Named {
            name: b"q",
            ty: TO_NODE,
        },
        Named {
            name: b"m",
            ty: TO_ROW,
        },
        Named {
            name: b"wide",
            ty: LLONG,
        },
    ],
    labels: &[b"done"],
    parts: &[
        ARITHMETIC,
        COMPARISONS,
        CONSTANTS,
        POINTERS,
        MEMBERS,
        STORED_CALLS,
        PLAIN_CALLS,
        TESTED,
        LOOPED,
        ENDED,
    ],
};

/// `int old ( )`
pub(crate) const OF_OLD: Code = Code {
    params: 0,
    locals: &[],
    labels: &[],
    parts: &[&[Word::Const(IntKind::Int, 1), Word::Return]],
};

/// `static int twice ( int a )`
pub(crate) const OF_TWICE: Code = Code {
    params: 1,
    locals: &[
        Named {
            name: b"a",
            ty: INT,
        },
        Named {
            name: b"b",
            ty: INT,
        },
    ],
    labels: &[],
    parts: &[&[
        Word::Local(1),
        Word::Local(0),
        Word::Value,
        Word::Local(0),
        Word::Value,
        Word::Bin(BinOp::Add),
        Word::Set,
        Word::Local(1),
        Word::Value,
        Word::Return,
    ]],
};

/// `static int apply ( int ( * f ) ( int ) , int a )`
pub(crate) const OF_APPLY: Code = Code {
    params: 2,
    locals: &[
        Named {
            name: b"f",
            ty: TO_UNARY,
        },
        Named {
            name: b"a",
            ty: INT,
        },
    ],
    labels: &[],
    parts: &[&[
        Word::Local(1),
        Word::Local(0),
        Word::Value,
        Word::Local(1),
        Word::Value,
        Word::ThroughTo,
        Word::Local(1),
        Word::Value,
        Word::Return,
    ]],
};

/// `static void stop ( void )`
pub(crate) const OF_STOP: Code = Code {
    params: 0,
    locals: &[],
    labels: &[],
    parts: &[&[Word::Leave]],
};

/// Adds the locals of a function, and their names where they are parameters.
fn add_locals(b: &mut Builder, types: &[TypeId], code: &Code, body: &mut Body) -> Result<(), Stop> {
    for (place, local) in code.locals.iter().enumerate() {
        let name = b.name(local.name)?;
        let ty = type_at(types, local.ty);
        body.locals.push(Local { name, ty })?;
        if place < code.params {
            body.params.push(name)?;
        }
    }
    Ok(())
}

/// Adds the labels of a function.
fn add_labels(b: &mut Builder, code: &Code, body: &mut Body) -> Result<(), Stop> {
    for label in code.labels {
        let name = b.name(label)?;
        body.labels.push(name)?;
    }
    Ok(())
}

/// Adds the names of a function.
fn add_names(b: &mut Builder, types: &[TypeId], code: &Code, body: &mut Body) -> Result<(), Stop> {
    add_locals(b, types, code, body)?;
    add_labels(b, code, body)
}

/// The body of a function.
pub(crate) fn body_of(b: &mut Builder, types: &[TypeId], code: &Code) -> Result<Body, Stop> {
    let mut body = Body {
        params: Vec::new(b.alloc),
        locals: Vec::new(b.alloc),
        labels: Vec::new(b.alloc),
        stmts: statements(b.alloc, types, code.parts)?,
    };
    add_names(b, types, code, &mut body)?;
    Ok(body)
}
