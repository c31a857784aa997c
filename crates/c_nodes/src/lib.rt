//! The nodes of C's syntax trees, put together from their parts.
//!
//! Its public contract gives, for each production that has a node of its own, the tree that the node is; or that memory was wanting.
//! A node knows its height, and the high ones stand in their boxes, so that what reads a unit moves no tree.
//!
//! The rules come from C11 6.5 to 6.9; the height of a tree is the project's own.
#![tactic(auto)]

mod bounds;
mod calls;
mod declarators;
mod enumerators;
mod expressions;
mod heights;
mod initialisers;
mod members;
mod parameters;
mod specifiers;
mod statements;
mod type_names;
mod units;

pub use bounds::{BoundNode, size_of, size_static_of, star_of, static_size_of, unspecified_of};
pub use calls::{ExprList, call_of};
pub use declarators::{
    DeclaratorNode, absent_of, array_of, declared_of, function_of, group_of, pointer_of,
    unprototyped_of,
};
pub use enumerators::{EnumeratorList, EnumeratorNode, enumerates_of, enumerator_of};
pub use expressions::{
    ExprNode, arrow_of, assign_of, binary_of, character_of, comma_of, conditional_of,
    identifier_of, index_of, integer_of, literals_of, logical_of, member_of, parentheses_of,
    postfix_of, prefix_of, sizeof_of, unary_of,
};
pub use initialisers::{
    DesignatorList, DesignatorNode, InitNode, ItemList, ItemNode, at_index_of, at_member_of,
    braces_of, item_of, single_of,
};
pub use members::{
    MemberDeclaratorList, MemberDeclaratorNode, MemberList, MemberNode, bit_field_of,
    member_assert_of, member_line_of, plain_of,
};
pub use parameters::{ParameterList, ParameterNode, parameter_of};
pub use specifiers::{
    SpecifierList, SpecifierNode, basic_of, enum_of, function_specifier_of, qualifier_of,
    storage_of, struct_of, tag_height, tag_of, typedef_name_of,
};
pub use statements::{Block, BlockItemNode, FullExpr, InnerStmt, StartNode, StmtNode};
pub use type_names::{
    TypeNameNode, alignof_of, cast_of, compound_of, sizeof_type_of, type_name_of,
};
pub use units::{
    DeclarationNode, DeclarationSpecifiers, Declarations, Declarators, ExternalNode, Externals,
    FullDeclarator, InitDeclaratorNode, Initialiser,
};
