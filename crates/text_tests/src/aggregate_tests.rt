use crate::builder::Part;
use crate::equal::equal;
use crate::program::text_of;
use crate::types::Made;
use cil_base::{Abi, AggId, IntKind, NamePool};
use cil_reader::{ReadStop, read};
use std::alloc::Global;
use std::test::Fail;
use type_graph::AggKind;

/// The types of a program without globals, and its text.
struct Row {
    types: &'static [Made],
    text: &'static str,
}

/// `struct node { struct node *next; struct list *owner; }; struct list { struct node *head; };`
const MUTUAL: &[Made] = &[
    Made::Tag(AggKind::Struct, b"node"),
    Made::Tag(AggKind::Struct, b"list"),
    Made::Pointer(0),
    Made::Pointer(1),
    Made::Complete(
        AggId(0),
        &[Part::Member(b"next", 2), Part::Member(b"owner", 3)],
    ),
    Made::Complete(AggId(1), &[Part::Member(b"head", 2)]),
];

/// `struct s { int a; };` of one unit, and `struct s { long a; };` of another.
const ONE_TAG: &[Made] = &[
    Made::Tag(AggKind::Struct, b"s"),
    Made::Tag(AggKind::Struct, b"s___0"),
    Made::Int(IntKind::Int),
    Made::Complete(AggId(0), &[Part::Member(b"a", 2)]),
    Made::Int(IntKind::Long),
    Made::Complete(AggId(1), &[Part::Member(b"a", 4)]),
];

/// `struct s { struct t *x; }; struct t { struct s (*p)[3]; };`
const ELEMENTS: &[Made] = &[
    Made::Tag(AggKind::Struct, b"s"),
    Made::Tag(AggKind::Struct, b"t"),
    Made::Pointer(1),
    Made::Complete(AggId(0), &[Part::Member(b"x", 2)]),
    Made::Array(0, Some(3)),
    Made::Pointer(4),
    Made::Complete(AggId(1), &[Part::Member(b"p", 5)]),
];

/// `struct s { int a; union { int b; char c; }; };`
const ANONYMOUS: &[Made] = &[
    Made::Tag(AggKind::Union, b"__anon___0"),
    Made::Tag(AggKind::Struct, b"s"),
    Made::Int(IntKind::Int),
    Made::Int(IntKind::Char),
    Made::Complete(AggId(0), &[Part::Member(b"b", 2), Part::Member(b"c", 3)]),
    Made::Complete(
        AggId(1),
        &[Part::Member(b"a", 2), Part::Anonymous(b"__m___0", 0)],
    ),
];

const ROWS: [Row; 4] = [
    Row {
        types: MUTUAL,
        text: "struct node ;\nstruct list ;\nstruct node {\n  struct node * next ;\n  struct list * owner ;\n} ;\nstruct list {\n  struct node * head ;\n} ;\n",
    },
    Row {
        types: ONE_TAG,
        text: "struct s ;\nstruct s___0 ;\nstruct s {\n  int a ;\n} ;\nstruct s___0 {\n  long a ;\n} ;\n",
    },
    Row {
        types: ELEMENTS,
        text: "struct s ;\nstruct t ;\nstruct s {\n  struct t * x ;\n} ;\nstruct t {\n  struct s ( * p ) [ 3 ] ;\n} ;\n",
    },
    Row {
        types: ANONYMOUS,
        text: "union __anon___0 ;\nstruct s ;\nunion __anon___0 {\n  int b ;\n  char c ;\n} ;\nstruct s {\n  int a ;\n  union __anon___0 __m___0 ;\n} ;\n",
    },
];

/// Whether bytes are the text of a program.
fn is_read(alloc: Global, text: &[u8]) -> Result<bool, ReadStop> {
    let mut pool = NamePool::new(alloc);
    match read(alloc, text, &mut pool, Abi::Lp64) {
        Ok(_) => Ok(true),
        Err(ReadStop::NotCil(_)) => Ok(false),
        Err(ReadStop::Memory) => Err(ReadStop::Memory),
    }
}

#[test]
fn aggregates_are_printed_and_read(rt: HostRuntime) -> Result<(), Fail> {
    for row in &ROWS {
        let text = text_of(rt.alloc(), row.types, &[])?;
        equal(&rt, &row.text, &text.as_slice(), &row.text.as_bytes());
        equal(&rt, &row.text, &is_read(rt.alloc(), &text), &Ok(true));
    }
    Ok(())
}
