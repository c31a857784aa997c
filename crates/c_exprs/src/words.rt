use c_tree::{
    BasicType, FunctionSpecifier, LogicalOp, Qualifier, StepOp, StorageClass, StructKind, UnaryOp,
};
use cil_base::{BinOp, NameId};

/// The first token of an expression (C11 6.5.1 to 6.5.4).
#[derive(Clone, Copy)]
pub enum Start {
    /// An identifier that is no typedef name.
    Name(NameId),
    Integer,
    Character,
    Literal,
    /// `(`
    Parenthesis,
    /// `++` or `--`
    Step(StepOp),
    Unary(UnaryOp),
    /// `sizeof`
    Sizeof,
    /// `_Alignof`
    Alignof,
}

/// An operator between two operands, with nothing else: those of 6.5.5 to 6.5.14, assignments and the comma.
#[derive(Clone, Copy)]
pub enum Joint {
    Arithmetic(BinOp),
    Logical(LogicalOp),
    /// `=`, and with an operator a compound assignment.
    Assign(Option<BinOp>),
    Comma,
}

/// The first token behind an operand, where it goes on (C11 6.5.2, 6.5.5 to 6.5.17).
#[derive(Clone, Copy)]
pub enum Operator {
    /// `[`
    Index,
    /// `(`
    Call,
    /// `.`
    Member,
    /// `->`
    Arrow,
    /// `++` or `--`
    Step(StepOp),
    /// `?`
    Conditional,
    Join(Joint),
}

/// The first token of a specifier (C11 6.7.1 to 6.7.4).
#[derive(Clone, Copy)]
pub enum Piece {
    Storage(StorageClass),
    Basic(BasicType),
    Qualifier(Qualifier),
    Function(FunctionSpecifier),
    /// A typedef name.
    Name(NameId),
    /// `struct` or `union`
    Struct(StructKind),
    /// `enum`
    Enum,
}

/// Where specifiers stand.
#[derive(Clone, Copy)]
pub enum SpecifierForm {
    /// In a declaration or a parameter (C11 6.7, 6.7.6).
    Declaration,
    /// In a type name or among members, where there are no storage classes and no function specifiers (C11 6.7.2.1, 6.7.7).
    TypeName,
}

/// Where a declarator stands.
#[derive(Clone, Copy)]
pub enum DeclaratorForm {
    /// In a declaration, or in a function's definition, whose own identifier list it may have (C11 6.7.6, 6.9.1).
    Definition,
    /// Among members: it declares a name, and has no identifier list (C11 6.7.2.1).
    Member,
    /// In a type name: it declares none (C11 6.7.7).
    Abstract,
    /// In a parameter: it may declare a name (C11 6.7.6).
    Parameter,
}

/// The first token of a derivation of a declarator, behind what it derives from (C11 6.7.6).
#[derive(Clone, Copy)]
pub enum Derivation {
    /// `[`
    Array,
    /// `(`
    Function,
}

/// The first token of a designator (C11 6.7.9).
#[derive(Clone, Copy)]
pub enum Designation {
    /// `[`
    Index,
    /// `.`
    Member,
}
