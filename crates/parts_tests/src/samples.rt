//! The units of samples: their texts and the names of their files.

use crate::equal::equal;
use cil_base::Bytes;
use sample_units::{unit_files, unit_sources};
use std::process::Abort;
use std::test::Fail;

const FIRST: &str =
    "struct node { struct node *next; struct list *owner; int value; };\nstruct list { struct node *head; int count; };\nextern struct list all;\nstatic struct node cell = { 0, &all, 38 };\nstatic int twist(int x) { return x * 8 + cell.value; }\nint work_0(int n) {\n  struct node *p; int i, s = 0;\n  cell.next = all.head; all.head = &cell; all.count++;\n  for (i = 0; i < n; i++) s = (s + twist(i)) & 1023;\n  for (p = all.head; p; p = p->next) s = (s + p->value) & 1023;\n  return s;\n}\nint work_0(int n);\nint work_1(int n);\nint putchar(int);\nstruct list all;\nstatic void put(int v) { if (v > 9) put(v / 10); putchar('0' + v % 10); }\nint main(void) {\n  int t = 0;\n  t = (t + work_0(10)) & 1023; put(t); putchar('\\n');\n  t = (t + work_1(10)) & 1023; put(t); putchar('\\n');\n  return all.count;\n}\n";

const SECOND: &str =
    "struct list { struct node *head; int count; };\nstruct node { struct node *next; struct list *owner; int value; };\nextern struct list all;\nstatic struct node cell = { 0, &all, 13 };\nstatic int twist(int x) { return x * 2 + cell.value; }\nint work_1(int n) {\n  struct node *p; int i, s = 0;\n  cell.next = all.head; all.head = &cell; all.count++;\n  for (i = 0; i < n; i++) s = (s + twist(i)) & 1023;\n  for (p = all.head; p; p = p->next) s = (s + p->value) & 1023;\n  return s;\n}\n";

fn are_texts(rt: &impl Abort, units: &[Bytes], texts: &[&str]) {
    equal(rt, &"units", &units.len(), &texts.len());
    for (unit, text) in units.iter().zip(texts.iter()) {
        equal(rt, text, &unit.as_slice(), &text.as_bytes());
    }
}

#[test]
fn the_units_of_seed_1(rt: HostRuntime) -> Result<(), Fail> {
    let units = unit_sources(rt.alloc(), 1, 2)?;
    are_texts(&rt, &units, &[FIRST, SECOND]);
    Ok(())
}

fn name_at(files: &[String], at: usize) -> Option<&str> {
    match files.get(at) {
        Some(name) => Some(name.as_str()),
        None => None,
    }
}

fn are_numbered(rt: &impl Abort, files: &[String]) {
    equal(rt, &"files", &files.len(), &12);
    for (at, name) in [(0, "sample-0.c"), (9, "sample-9.c"), (11, "sample-11.c")] {
        equal(rt, &at, &name_at(files, at), &Some(name));
    }
}

#[test]
fn the_files_of_twelve_units(rt: HostRuntime) -> Result<(), Fail> {
    let files = unit_files(rt.alloc(), 12)?;
    are_numbered(&rt, &files);
    Ok(())
}

// Seeds, numbers of units, and how many bytes all their texts have.
const SIZES: [(u32, u32, usize); 4] = [
    (1, 1, 708),
    (1, 2, 1_255),
    (7, 40, 22_122),
    (7, 1_000, 552_627),
];

// How many bytes all texts have.
fn length_of(units: &[Bytes]) -> Option<usize> {
    let mut length = 0_usize;
    for unit in units {
        length = length.checked_add(unit.as_slice().len())?;
    }
    Some(length)
}

#[test]
fn the_sizes_of_samples(rt: HostRuntime) -> Result<(), Fail> {
    for (seed, count, bytes) in SIZES {
        let units = unit_sources(rt.alloc(), seed, count)?;
        equal(&rt, &(seed, count), &length_of(&units), &Some(bytes));
    }
    Ok(())
}
