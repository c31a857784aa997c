//! The programs of CIL: a small, explicit C in which expressions have no side effects, every conversion is
//! written, and each type, name and place is resolved.
//!
//! Its definitions say which trees are well-formed, what the one text of a tree is, and when two programs are
//! equal; contracts see the trees of the code as plain trees, with their types and names resolved.
//!
//! The trees are own; their typing is that of C11 6.3 and 6.5, their statements those of C11 6.8.
#![tactic(auto)]

mod expressions;
mod globals;
mod laws;
mod statements;

pub use expressions::{Exp, Host, Lval, Offset};
pub use globals::{Body, CilUnit, GlobalDecl, GlobalDef, ImageItem, Local, Step};
pub use laws::same_types_are_equal;
pub use statements::{Callee, Instr, Stmt};
