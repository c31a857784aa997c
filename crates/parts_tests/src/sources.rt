//! Units of files in memory: which are kept, and which limit is passed.

use crate::equal::equal;
use cil_base::What;
use cil_sources::{Sources, read_units};
use outside::{MemFiles, ReadStop};
use std::alloc::{AllocError, Global};

/// A name, and how many bytes the file has.
struct Size {
    name: &'static str,
    bytes: usize,
}

/// Files, the names that are asked for, the numbers of calls that fail, and what is to come: how many bytes each unit has that is kept,
/// and the limit that the next one passes; or none where a file cannot be read.
struct Row {
    there: &'static [Size],
    asked: &'static [&'static str],
    fails: &'static [u64],
    kept: Option<&'static [usize]>,
    over: Option<What>,
}

const UNIT: usize = 4_194_304;

// Adds a file of so many bytes.
fn add_file(
    files: &mut Vec<(String, Vec<u8>)>,
    alloc: Global,
    size: &Size,
) -> Result<(), AllocError> {
    let name = String::from_str(alloc, size.name)?;
    let bytes = vec![in alloc; b'x'; size.bytes]?;
    files.push((name, bytes))?;
    Ok(())
}

// Files of so many bytes each.
fn files_of(alloc: Global, sizes: &[Size]) -> Result<Vec<(String, Vec<u8>)>, AllocError> {
    let mut files = Vec::new(alloc);
    for size in sizes {
        add_file(&mut files, alloc, size)?;
    }
    Ok(files)
}

// These names.
fn names_of(alloc: Global, asked: &[&str]) -> Result<Vec<String>, AllocError> {
    let mut names = Vec::new(alloc);
    for name in asked {
        names.push(String::from_str(alloc, name)?)?;
    }
    Ok(names)
}

// The files of a row, of which calls of its numbers fail.
fn files_in(alloc: Global, row: &Row) -> Result<MemFiles, AllocError> {
    let files = files_of(alloc, row.there)?;
    let fails = Vec::from_slice(alloc, row.fails)?;
    Ok(MemFiles::new(files, fails))
}

// Reads the files of a row.
fn read(alloc: Global, row: &Row) -> Result<Sources, ReadStop> {
    let names = names_of(alloc, row.asked)?;
    let mut files = files_in(alloc, row)?;
    read_units(alloc, &names, &mut files)
}

// Whether the units have so many bytes.
fn have_sizes(sources: &Sources, sizes: &[usize]) -> bool {
    if sources.units.len() != sizes.len() {
        return false;
    }
    for i in 0..sizes.len() {
        if sources.units[i].as_slice().len() != sizes[i] {
            return false;
        }
    }
    true
}

const ROWS: [Row; 8] = [
    Row {
        there: &[
            Size {
                name: "a",
                bytes: 3,
            },
            Size {
                name: "b",
                bytes: 5,
            },
        ],
        asked: &["b", "a", "b"],
        fails: &[],
        kept: Some(&[5, 3, 5]),
        over: None,
    },
    Row {
        there: &[Size {
            name: "a",
            bytes: 0,
        }],
        asked: &["a"],
        fails: &[],
        kept: Some(&[0]),
        over: None,
    },
    Row {
        there: &[Size {
            name: "a",
            bytes: UNIT,
        }],
        asked: &["a"],
        fails: &[],
        kept: Some(&[UNIT]),
        over: None,
    },
    Row {
        there: &[
            Size {
                name: "a",
                bytes: 1,
            },
            Size {
                name: "b",
                bytes: UNIT + 1,
            },
        ],
        asked: &["a", "b", "a"],
        fails: &[],
        kept: Some(&[1]),
        over: Some(What::UnitBytes),
    },
    Row {
        there: &[Size {
            name: "a",
            bytes: UNIT,
        }],
        asked: &["a", "a", "a", "a"],
        fails: &[],
        kept: Some(&[UNIT, UNIT, UNIT, UNIT]),
        over: None,
    },
    Row {
        there: &[
            Size {
                name: "a",
                bytes: UNIT,
            },
            Size {
                name: "b",
                bytes: 1,
            },
        ],
        asked: &["a", "a", "a", "a", "b"],
        fails: &[],
        kept: Some(&[UNIT, UNIT, UNIT, UNIT]),
        over: Some(What::TotalBytes),
    },
    Row {
        there: &[
            Size {
                name: "a",
                bytes: 1,
            },
            Size {
                name: "b",
                bytes: UNIT + 1,
            },
        ],
        asked: &["b", "a", "c"],
        fails: &[],
        kept: None,
        over: None,
    },
    Row {
        there: &[Size {
            name: "a",
            bytes: 1,
        }],
        asked: &["a", "a"],
        fails: &[1],
        kept: None,
        over: None,
    },
];

// Whether the sources are those of a row.
fn are_kept(sources: &Sources, row: &Row) -> bool {
    match row.kept {
        Some(sizes) => have_sizes(sources, sizes) && sources.over == row.over,
        None => false,
    }
}

// Whether reading gives what the row says.
fn is_met(alloc: Global, row: &Row) -> Result<bool, ReadStop> {
    match read(alloc, row) {
        Ok(sources) => Ok(are_kept(&sources, row)),
        Err(ReadStop::Failed) => Ok(row.kept.is_none()),
        Err(stop) => Err(stop),
    }
}

#[test]
fn units_are_kept_up_to_the_limits(rt: HostRuntime) {
    for (number, row) in ROWS.iter().enumerate() {
        equal(&rt, &number, &is_met(rt.alloc(), row), &Ok(true));
    }
}
