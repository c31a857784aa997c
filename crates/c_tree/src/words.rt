/// A storage-class specifier (C11 6.7.1).
#[derive(Clone, Copy, PartialEq, Eq)]
pub enum StorageClass {
    Typedef,
    Extern,
    Static,
    Auto,
    Register,
}

/// A type specifier that is one keyword (C11 6.7.2).
#[derive(Clone, Copy)]
pub enum BasicType {
    Void,
    Char,
    Short,
    Int,
    Long,
    Signed,
    Unsigned,
    Bool,
}

/// A type qualifier (C11 6.7.3).
#[derive(Clone, Copy)]
pub enum Qualifier {
    Const,
    Restrict,
}

/// A function specifier (C11 6.7.4).
#[derive(Clone, Copy)]
pub enum FunctionSpecifier {
    Inline,
    Noreturn,
}

/// The keyword of a structure or union specifier (C11 6.7.2.1).
#[derive(Clone, Copy)]
pub enum StructKind {
    Struct,
    Union,
}

/// The keyword of a specifier with a tag (C11 6.7.2.3).
#[derive(Clone, Copy)]
pub enum TagKind {
    Struct,
    Union,
    Enum,
}

/// An increment or decrement operator (C11 6.5.2.4, 6.5.3.1).
#[derive(Clone, Copy)]
pub enum StepOp {
    Increment,
    Decrement,
}

/// A unary operator before a cast expression (C11 6.5.3).
#[derive(Clone, Copy)]
pub enum UnaryOp {
    Address,
    Indirection,
    Plus,
    Minus,
    Complement,
    Not,
}

/// A logical operator (C11 6.5.13, 6.5.14).
#[derive(Clone, Copy)]
pub enum LogicalOp {
    And,
    Or,
}
