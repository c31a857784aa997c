//! The syntax trees of C: each production of C11 Annex A has its constructor, as far as the project's profile reads it.
//!
//! Its definitions say what tokens a tree has, what its productions ask of their parts, how high it is and which token each node begins with; its
//! public contract gives the levels of operators and tells at which level an expression stands and of what form a declarator is. The
//! definitions are of plain trees, and a view takes the code's trees to them.
//!
//! The rules come from C11 6.5 to 6.9 and Annex A; the height is the project's own.
#![tactic(auto)]

mod expression;
mod level;
mod rules;
mod statement;
mod words;

pub use expression::{
    ArrayBound, Declarator, Designator, Enumerator, Expr, Init, InitItem, MemberDeclaration,
    MemberDeclarator, Parameter, Specifier, Specifiers, StaticAssert, TypeName,
};
pub use level::Level;
pub use rules::{
    binary_level, declares, has_own_names, is_absent, is_underived, is_within, logical_level, rank,
    tighter,
};
pub use statement::{
    BlockItem, Declaration, ExtDecl, ForStart, FunctionDefinition, InitDeclarator, Stmt, Unit,
};
pub use words::{
    BasicType, FunctionSpecifier, LogicalOp, Qualifier, StepOp, StorageClass, StructKind, TagKind,
    UnaryOp,
};
