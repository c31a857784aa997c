use crate::words::{
    BasicType, FunctionSpecifier, LogicalOp, Qualifier, StepOp, StorageClass, StructKind, TagKind,
    UnaryOp,
};
use cil_base::{BinOp, Bytes, NameId};

/// An expression (C11 6.5.1 to 6.5.17). In each node the first field is the number of its first token.
#[cycle(tree)]
#[derive(Drop)]
pub enum Expr {
    /// An identifier.
    Name(u32, NameId),
    /// An integer constant, as it is written.
    Integer(u32, Bytes),
    /// A character constant, as it is written.
    Character(u32, Bytes),
    /// String literals that stand one behind the other, as they are written: at least one.
    Literals(u32, Vec<Bytes>),
    /// `( e )`
    Parentheses(u32, Box<Expr>),
    /// `e [ e ]`
    Index(u32, Box<Expr>, Box<Expr>),
    /// `e ( e , .. )`
    Call(u32, Box<Expr>, Vec<Expr>),
    /// `e . name`
    Member(u32, Box<Expr>, NameId),
    /// `e -> name`
    Arrow(u32, Box<Expr>, NameId),
    /// `e ++` and `e --`
    Postfix(u32, Box<Expr>, StepOp),
    /// `( type-name ) { .. }`: at least one item, and whether a comma stands behind the last.
    CompoundLiteral(u32, Box<TypeName>, Vec<InitItem>, bool),
    /// `++ e` and `-- e`
    Prefix(u32, StepOp, Box<Expr>),
    /// A unary operator before its operand.
    Unary(u32, UnaryOp, Box<Expr>),
    /// `sizeof e`
    SizeofExpr(u32, Box<Expr>),
    /// `sizeof ( type-name )`
    SizeofType(u32, Box<TypeName>),
    /// `_Alignof ( type-name )`
    AlignofType(u32, Box<TypeName>),
    /// `( type-name ) e`
    Cast(u32, Box<TypeName>, Box<Expr>),
    /// A binary operator of 6.5.5 to 6.5.12 between its operands.
    Binary(u32, BinOp, Box<Expr>, Box<Expr>),
    /// `e && e` and `e || e`
    Logical(u32, LogicalOp, Box<Expr>, Box<Expr>),
    /// `e ? e : e`
    Conditional(u32, Box<Expr>, Box<Expr>, Box<Expr>),
    /// `e = e`, and with an operator a compound assignment.
    Assign(u32, Option<BinOp>, Box<Expr>, Box<Expr>),
    /// `e , e`
    Comma(u32, Box<Expr>, Box<Expr>),
}

/// A type name (C11 6.7.7): its specifiers and qualifiers, and an abstract declarator.
#[cycle(tree)]
#[derive(Drop)]
pub struct TypeName {
    pub specifiers: Vec<Specifier>,
    pub declarator: Declarator,
}

/// A specifier or qualifier of a declaration (C11 6.7.1 to 6.7.4, 6.7.8), with the number of its first token.
#[cycle(tree)]
#[derive(Drop)]
pub enum Specifier {
    Storage(u32, StorageClass),
    Basic(u32, BasicType),
    Qualifier(u32, Qualifier),
    Function(u32, FunctionSpecifier),
    /// A typedef name.
    TypedefName(u32, NameId),
    /// `struct tag`, `union tag` and `enum tag`
    Tag(u32, TagKind, NameId),
    /// A structure or union specifier with its members: at least one declaration.
    Members(u32, StructKind, Option<NameId>, Vec<MemberDeclaration>),
    /// An enumeration specifier with its enumerators, at least one, and whether a comma stands behind the last.
    Enumerators(u32, Option<NameId>, Vec<Enumerator>, bool),
}

/// The specifiers and qualifiers of a declaration in their order (C11 6.7).
pub type Specifiers = Vec<Specifier>;

/// A declaration among members (C11 6.7.2.1).
#[cycle(tree)]
#[derive(Drop)]
pub enum MemberDeclaration {
    /// Specifiers, the members' declarators, `;`
    Members(Vec<Specifier>, Vec<MemberDeclarator>),
    StaticAssert(StaticAssert),
}

/// A member's declarator (C11 6.7.2.1).
#[cycle(tree)]
#[derive(Drop)]
pub enum MemberDeclarator {
    Plain(Declarator),
    /// A bit-field: its declarator, if any, `:` and its width.
    BitField(Declarator, Box<Expr>),
}

/// An enumerator (C11 6.7.2.2), with the number of its first token.
#[cycle(tree)]
#[derive(Drop)]
pub struct Enumerator {
    pub at: u32,
    pub name: NameId,
    pub value: Option<Box<Expr>>,
}

/// A static assertion (C11 6.7.10), with the number of its first token.
#[cycle(tree)]
#[derive(Drop)]
pub struct StaticAssert {
    pub at: u32,
    pub condition: Box<Expr>,
    /// The number of the first token of the message.
    pub message_at: u32,
    /// The string literals of the message: at least one.
    pub message: Vec<Bytes>,
}

/// A declarator or an abstract declarator (C11 6.7.6, 6.7.7): derivations, each around an inner one. In each node the
/// first field is the number of its first token.
#[cycle(tree)]
#[derive(Drop)]
pub enum Declarator {
    /// The declared identifier.
    Name(u32, NameId),
    /// No identifier, as in an abstract declarator, with the number of the token behind its place.
    Absent(u32),
    /// `( d )`
    Parentheses(u32, Box<Declarator>),
    /// `* qualifiers d`
    Pointer(u32, Vec<Qualifier>, Box<Declarator>),
    /// `d [ .. ]`
    Array(u32, Box<Declarator>, ArrayBound),
    /// `d ( parameters )`, at least one parameter, and whether `, ...` ends them.
    Function(u32, Box<Declarator>, Vec<Parameter>, bool),
    /// `d ( identifiers )` without a prototype, where there may be none.
    Identifiers(u32, Box<Declarator>, Vec<NameId>),
}

/// What stands between the brackets of an array declarator (C11 6.7.6.2). In each node the first field is the number
/// of the opening bracket.
#[cycle(tree)]
#[derive(Drop)]
pub enum ArrayBound {
    /// `[ qualifiers ]`
    Unspecified(u32, Vec<Qualifier>),
    /// `[ qualifiers * ]`
    Star(u32, Vec<Qualifier>),
    /// `[ qualifiers e ]`
    Size(u32, Vec<Qualifier>, Box<Expr>),
    /// `[ static qualifiers e ]`
    StaticSize(u32, Vec<Qualifier>, Box<Expr>),
    /// `[ qualifiers static e ]`, at least one qualifier
    SizeStatic(u32, Vec<Qualifier>, Box<Expr>),
}

/// A parameter's declaration (C11 6.7.6).
#[cycle(tree)]
#[derive(Drop)]
pub struct Parameter {
    pub specifiers: Vec<Specifier>,
    pub declarator: Declarator,
}

/// An initialiser (C11 6.7.9).
#[cycle(tree)]
#[derive(Drop)]
pub enum Init {
    Expr(Box<Expr>),
    /// The number of its brace, its items, at least one, and whether a comma stands behind the last.
    Braces(u32, Vec<InitItem>, bool),
}

/// An initialiser in a brace list with its designators (C11 6.7.9).
#[cycle(tree)]
#[derive(Drop)]
pub struct InitItem {
    pub designators: Vec<Designator>,
    pub init: Init,
}

/// A designator (C11 6.7.9), with the number of its first token.
#[cycle(tree)]
#[derive(Drop)]
pub enum Designator {
    /// `[ e ]`
    Index(u32, Box<Expr>),
    /// `. name`
    Member(u32, NameId),
}
