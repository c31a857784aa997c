//! Names that are distinct over several translation units that become one program.
//!
//! External names stay; the names of statics, enumerators, literals, parameters, objects, temporaries, labels and tags get a suffix where
//! they are taken, or where they are made. Its public contract says which name each of them gets, and that all else of the units stays.
//!
//! The name spaces and scopes are those of C11 6.2.1 and 6.2.3; the suffixes are own.
#![tactic(auto)]

mod bodies;
mod files;
mod kept;
mod locals;
mod renaming;
mod standing;
mod tags;
mod types;

pub use renaming::rename;
