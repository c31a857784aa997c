ghost use Rattle.std.specs.Prelude.{◌≡◌};
ghost use Rattle.c_tree.specs.Spelling.{storage_word as word_of_storage, basic_word as word_of_basic, qualifier_word as word_of_qualifier, function_word as word_of_function, struct_word as word_of_struct, tag_word as word_of_tag, step_sign as sign_of_step, unary_sign as sign_of_unary, binary_sign as sign_of_binary, logical_sign as sign_of_logical, assign_sign as sign_of_assign};

use c_tree::{
    BasicType, FunctionSpecifier, LogicalOp, Qualifier, StepOp, StorageClass, StructKind, TagKind,
    UnaryOp,
};
use cil_base::{BinOp, Keyword, Punctuator};

/// The keyword of a storage-class specifier (C11 6.7.1).
pub fn storage_word(class: StorageClass) -> Keyword
    ensures { result ≡ word_of_storage class }
{
    match class {
        StorageClass::Typedef => Keyword::Typedef,
        StorageClass::Extern => Keyword::Extern,
        StorageClass::Static => Keyword::Static,
        StorageClass::Auto => Keyword::Auto,
        StorageClass::Register => Keyword::Register,
    }
}

/// The keyword of a type specifier that is one (C11 6.7.2).
pub fn basic_word(basic: BasicType) -> Keyword
    ensures { result ≡ word_of_basic basic }
{
    match basic {
        BasicType::Void => Keyword::Void,
        BasicType::Char => Keyword::Char,
        BasicType::Short => Keyword::Short,
        BasicType::Int => Keyword::Int,
        BasicType::Long => Keyword::Long,
        BasicType::Signed => Keyword::Signed,
        BasicType::Unsigned => Keyword::Unsigned,
        BasicType::Bool => Keyword::Bool,
    }
}

/// The keyword of a type qualifier (C11 6.7.3).
pub fn qualifier_word(qualifier: Qualifier) -> Keyword
    ensures { result ≡ word_of_qualifier qualifier }
{
    match qualifier {
        Qualifier::Const => Keyword::Const,
        Qualifier::Restrict => Keyword::Restrict,
    }
}

/// The keyword of a function specifier (C11 6.7.4).
pub fn function_word(specifier: FunctionSpecifier) -> Keyword
    ensures { result ≡ word_of_function specifier }
{
    match specifier {
        FunctionSpecifier::Inline => Keyword::Inline,
        FunctionSpecifier::Noreturn => Keyword::Noreturn,
    }
}

/// The keyword of a structure or union specifier (C11 6.7.2.1).
pub fn struct_word(kind: StructKind) -> Keyword
    ensures { result ≡ word_of_struct kind }
{
    match kind {
        StructKind::Struct => Keyword::Struct,
        StructKind::Union => Keyword::Union,
    }
}

/// The keyword of a specifier with a tag (C11 6.7.2.3).
pub fn tag_word(kind: TagKind) -> Keyword
    ensures { result ≡ word_of_tag kind }
{
    match kind {
        TagKind::Struct => Keyword::Struct,
        TagKind::Union => Keyword::Union,
        TagKind::Enum => Keyword::Enum,
    }
}

/// The punctuator of an increment or decrement operator (C11 6.5.2.4, 6.5.3.1).
pub fn step_sign(op: StepOp) -> Punctuator
    ensures { result ≡ sign_of_step op }
{
    match op {
        StepOp::Increment => Punctuator::PlusPlus,
        StepOp::Decrement => Punctuator::MinusMinus,
    }
}

/// The punctuator of a unary operator (C11 6.5.3).
pub fn unary_sign(op: UnaryOp) -> Punctuator
    ensures { result ≡ sign_of_unary op }
{
    match op {
        UnaryOp::Address => Punctuator::Ampersand,
        UnaryOp::Indirection => Punctuator::Star,
        UnaryOp::Plus => Punctuator::Plus,
        UnaryOp::Minus => Punctuator::Minus,
        UnaryOp::Complement => Punctuator::Tilde,
        UnaryOp::Not => Punctuator::Exclamation,
    }
}

/// The punctuator of a binary operator (C11 6.5.5 to 6.5.12).
pub fn binary_sign(op: BinOp) -> Punctuator
    ensures { result ≡ sign_of_binary op }
{
    match op {
        BinOp::Mul => Punctuator::Star,
        BinOp::Div => Punctuator::Slash,
        BinOp::Rem => Punctuator::Percent,
        BinOp::Add => Punctuator::Plus,
        BinOp::Sub => Punctuator::Minus,
        BinOp::Shl => Punctuator::LeftShift,
        BinOp::Shr => Punctuator::RightShift,
        BinOp::Lt => Punctuator::Less,
        BinOp::Gt => Punctuator::Greater,
        BinOp::Le => Punctuator::LessEqual,
        BinOp::Ge => Punctuator::GreaterEqual,
        BinOp::Eq => Punctuator::EqualEqual,
        BinOp::Ne => Punctuator::ExclamationEqual,
        BinOp::And => Punctuator::Ampersand,
        BinOp::Xor => Punctuator::Caret,
        BinOp::Or => Punctuator::Bar,
    }
}

/// The punctuator of a logical operator (C11 6.5.13, 6.5.14).
pub fn logical_sign(op: LogicalOp) -> Punctuator
    ensures { result ≡ sign_of_logical op }
{
    match op {
        LogicalOp::And => Punctuator::AmpersandAmpersand,
        LogicalOp::Or => Punctuator::BarBar,
    }
}

/// The punctuator of an assignment operator (C11 6.5.16); a comparison has none.
pub fn assign_sign(op: Option<BinOp>) -> Option<Punctuator>
    ensures { result ≡ sign_of_assign op }
{
    let Some(op) = op else {
        return Some(Punctuator::Equal);
    };
    match op {
        BinOp::Mul => Some(Punctuator::StarEqual),
        BinOp::Div => Some(Punctuator::SlashEqual),
        BinOp::Rem => Some(Punctuator::PercentEqual),
        BinOp::Add => Some(Punctuator::PlusEqual),
        BinOp::Sub => Some(Punctuator::MinusEqual),
        BinOp::Shl => Some(Punctuator::LeftShiftEqual),
        BinOp::Shr => Some(Punctuator::RightShiftEqual),
        BinOp::And => Some(Punctuator::AmpersandEqual),
        BinOp::Xor => Some(Punctuator::CaretEqual),
        BinOp::Or => Some(Punctuator::BarEqual),
        BinOp::Lt | BinOp::Gt | BinOp::Le | BinOp::Ge | BinOp::Eq | BinOp::Ne => None,
    }
}
