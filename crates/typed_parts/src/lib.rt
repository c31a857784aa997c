//! What the walk of a unit does at one node of the syntax tree: the leaves and operators of expressions, what a name declares, and what a
//! derivation makes of a type; and the state of the walk.
//!
//! Its public contract answers a typed tree or a type, or a fault with the number of its token. No call walks a tree.
//!
//! The rules come from C11 6.5, 6.6 and 6.7.
#![tactic(auto)]

mod declared;
mod derivations;
mod leaves;
mod nulls;
mod operators;
mod stops;
mod tokens;
mod walker;

pub use declared::{
    Company, Places, add_anonymous, add_member, anonymous_body, closed, declare,
    declared_parameter, last_member, opened, worded,
};
pub use derivations::{
    Brackets, DeclaredName, Derivation, OwnList, Role, bound_value, bracket_quals, built,
    constant_value, is_direct, may_qualify, named, only_in_parameter, own_list, star,
};
pub use leaves::{bytes_of, character, integer, name, string, string_of, unevaluated_place};
pub use nulls::{integer_constant, is_integer, is_null};
pub use operators::{
    align_of, arrow, assign, binary, call, cast, comma, conditional, convert, logical, member,
    postfix_form, prefix_form, size_of, step, subscript, unary,
};
pub use stops::{WalkStop, impossible, placed, sized, violated};
pub use tokens::{specifiers_at, type_name_at};
pub use walker::{Evaluation, Site, Walker, Within};
