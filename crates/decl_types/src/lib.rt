//! What a translation unit has declared so far: scopes, linkage, tags, the bodies of structs, unions and enums, derived types, and the numbers of objects
//! and functions.
//!
//! Its public contract answers for every number, whatever was declared before; scopes are opened, left and searched as C has them, and each other call is
//! one step of a declaration, which is refused for the faults of that step alone. The caller adds the place.
//!
//! The rules come from C11 6.2.1 to 6.2.3, 6.2.7, 6.7 and 6.9.
#![tactic(auto)]

mod basics;
mod bodies;
mod declare;
mod declared;
mod declarer;
mod ending;
mod entities;
mod headings;
mod linking;
mod made_names;
mod new_names;
mod numbers;
mod spelled;
mod stops;
mod tags;
mod types;

pub use bodies::{MemberPath, PathStep};
pub use declared::{Behind, BodyForm, Declared, Declaring, Form, Linkage, MemberAt};
pub use declarer::Declarer;
pub use entities::{Declarations, DeclaredEntity, Defined, LateFault};
pub use headings::{Heading, Inline, Position, heading_of};
pub use made_names::MadeNames;
pub use new_names::{NewName, is_reserved};
pub use numbers::FunctionLocals;
pub use spelled::qualifiers;
pub use types::{Prototype, array, function, is_constant, parameter, pointer};
