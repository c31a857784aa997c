//! The memory of a C program in steps: named objects of bytes, and what C computes from scalar values.
//!
//! Its public contract gives each call of `Store` as a change of a map from names to objects, None exactly
//! where C leaves the access undefined, and each operator on values as its definition.
//!
//! The rules come from C11 6.2.4, 6.2.6, 6.3 and 6.5; names in place of addresses, unknown bytes and
//! fragments of pointers are own.
#![tactic(auto)]

mod contents;
mod frames;
mod laws;
mod objects;
mod operators;
mod pages;
mod pointers;
mod regions;
mod scalars;
mod slots;
mod stores;
mod values;

pub use laws::{order_is_kept, stores_are_retained};
pub use operators::{compute, compute_unary, convert};
pub use pointers::{ObjName, Pointer};
pub use stores::Store;
pub use values::{Byte, Cells, Scalar, Value};
