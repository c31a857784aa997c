//! Typed trees of C: names are resolved, every conversion, load and decay is a node, and effects still stand in expressions.
//!
//! Its public contract says of each builder which plain tree its node stands for, over those of its operands, at which type and with an
//! effect or without, and tells lvalues and functions; a tree is seen the same where the arena of its types grows.
//!
//! The types are those of C11 6.3 and 6.5, initialisers those of 6.7.9, statements those of 6.8.
#![tactic(auto)]

mod build;
mod build_initialisers;
mod build_statements;
mod build_units;
mod expressions;
mod initialisers;
mod statements;
mod units;

pub use build::{
    address, assign, binary, call, comma, compute, conditional, convert, decay, entity, indirect,
    integer, literal, load, local, logical, member, step, subscript, unary,
};
pub use build_initialisers::{
    aggregate_part, constant_part, initialiser, scalar_part, string_part, zeroed_part,
};
pub use build_statements::{
    break_jump, case_label, compound, continue_jump, declaration, default_label, do_loop,
    evaluation, for_loop, goto, label, return_jump, selection, switch, while_loop,
};
pub use build_units::{
    EntityHead, EntityPlaces, FunctionLists, entity_declared, function_body, translation_unit,
};
pub use expressions::{Branches, Logic, StepForm, TypedExp, TypedNode};
pub use initialisers::{InitStep, Path, Step, TypedInit};
pub use statements::TypedStmt;
pub use units::{
    Definition, Entity, EntityKind, Ordinary, TypedFunction, TypedLiteral, TypedLocal, TypedUnit,
};
