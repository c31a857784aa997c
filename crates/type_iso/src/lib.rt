//! Which structs, unions and enums of several translation units are one type.
//!
//! Two complete ones are isomorphic where their kinds, tags and members are alike, and their members' types again; those at equal
//! places of two declarations of one external name are one by its linkage. The classes of both, in the order in which a program prints
//! them, are the answer, or the first two declarations that do not correspond.
//!
//! The rules come from C11 6.2.7 (types of two units); that unlinked isomorphic types are one, that names match without the suffixes of
//! an earlier merge, and that qualifiers are not compared, are own.
#![tactic(auto)]

mod class_table;
mod merging;
mod ordering;

pub use class_table::{ClassNo, Classes};
pub use merging::{ClassStop, classes};
