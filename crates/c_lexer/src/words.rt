ghost use Rattle.std.specs.Prelude.{◌≡◌, ◌≢◌};
ghost use Rattle.c_lexer.specs.Words.{spelling, spelled_meaning, words_with, found, word_meaning, first_byte, skipped_names, is_skipped_name};

use cil_base::{Feature, Keyword};

/// The words that mean something to the lexer, and the names of attributes.
#[derive(Clone, Copy)]
pub enum Spelled {
    Keyword(Keyword),
    /// `__restrict`
    UnderRestrict,
    /// `__restrict__`
    UnderRestrictUnder,
    /// `__inline`
    UnderInline,
    /// `__inline__`
    UnderInlineUnder,
    /// `__const`
    UnderConst,
    /// `__signed__`
    UnderSignedUnder,
    /// `float`
    Float,
    /// `double`
    Double,
    /// `volatile`
    Volatile,
    /// `__volatile`
    UnderVolatile,
    /// `__volatile__`
    UnderVolatileUnder,
    /// `_Complex`
    LowComplex,
    /// `_Imaginary`
    LowImaginary,
    /// `_Atomic`
    LowAtomic,
    /// `_Thread_local`
    LowThreadLocal,
    /// `__thread`
    UnderThread,
    /// `_Alignas`
    LowAlignas,
    /// `_Generic`
    LowGeneric,
    /// `setjmp`
    Setjmp,
    /// `longjmp`
    Longjmp,
    /// `asm`
    Asm,
    /// `__asm`
    UnderAsm,
    /// `__asm__`
    UnderAsmUnder,
    /// `__builtin_va_list`
    UnderBuiltinVaList,
    /// `__builtin_va_start`
    UnderBuiltinVaStart,
    /// `__builtin_va_arg`
    UnderBuiltinVaArg,
    /// `__builtin_va_end`
    UnderBuiltinVaEnd,
    /// `__builtin_va_copy`
    UnderBuiltinVaCopy,
    /// `__int128`
    UnderInt128,
    /// `__int128_t`
    UnderInt128T,
    /// `__uint128_t`
    UnderUint128T,
    /// `__func__`
    UnderFuncUnder,
    /// `__FUNCTION__`
    UnderFunctionUpperUnder,
    /// `typeof`
    Typeof,
    /// `__typeof`
    UnderTypeof,
    /// `__typeof__`
    UnderTypeofUnder,
    /// `__auto_type`
    UnderAutoType,
    /// `__extension__`
    UnderExtensionUnder,
    /// `__attribute__`
    UnderAttributeUnder,
    /// `__attribute`
    UnderAttribute,
    /// `unused`
    NamedUnused,
    /// `__unused__`
    NamedUnderUnusedUnder,
    /// `noreturn`
    NamedNoreturn,
    /// `__noreturn__`
    NamedUnderNoreturnUnder,
    /// `__const__`
    NamedUnderConstUnder,
    /// `pure`
    NamedPure,
    /// `__pure__`
    NamedUnderPureUnder,
    /// `nothrow`
    NamedNothrow,
    /// `__nothrow__`
    NamedUnderNothrowUnder,
    /// `leaf`
    NamedLeaf,
    /// `__leaf__`
    NamedUnderLeafUnder,
    /// `nonnull`
    NamedNonnull,
    /// `__nonnull__`
    NamedUnderNonnullUnder,
    /// `format`
    NamedFormat,
    /// `__format__`
    NamedUnderFormatUnder,
    /// `malloc`
    NamedMalloc,
    /// `__malloc__`
    NamedUnderMallocUnder,
    /// `warn_unused_result`
    NamedWarnUnusedResult,
    /// `__warn_unused_result__`
    NamedUnderWarnUnusedResultUnder,
    /// `deprecated`
    NamedDeprecated,
    /// `__deprecated__`
    NamedUnderDeprecatedUnder,
}

/// What a word is to the lexer.
#[derive(Clone, Copy)]
pub enum WordMeaning {
    Keyword(Keyword),
    Excluded(Feature),
    /// It is passed over.
    Skipped,
    /// It begins an attribute.
    Attribute,
    /// An identifier.
    Name,
}

impl Spelled {
    /// The word as it is written.
    fn text(self) -> &'static [u8]
        ensures { result.now ≡ spelling self }
    {
        match self {
            Spelled::Keyword(keyword) => keyword.spelling(),
            Spelled::UnderRestrict => b"__restrict",
            Spelled::UnderRestrictUnder => b"__restrict__",
            Spelled::UnderInline => b"__inline",
            Spelled::UnderInlineUnder => b"__inline__",
            Spelled::UnderConst => b"__const",
            Spelled::UnderSignedUnder => b"__signed__",
            Spelled::Float => b"float",
            Spelled::Double => b"double",
            Spelled::Volatile => b"volatile",
            Spelled::UnderVolatile => b"__volatile",
            Spelled::UnderVolatileUnder => b"__volatile__",
            Spelled::LowComplex => b"_Complex",
            Spelled::LowImaginary => b"_Imaginary",
            Spelled::LowAtomic => b"_Atomic",
            Spelled::LowThreadLocal => b"_Thread_local",
            Spelled::UnderThread => b"__thread",
            Spelled::LowAlignas => b"_Alignas",
            Spelled::LowGeneric => b"_Generic",
            Spelled::Setjmp => b"setjmp",
            Spelled::Longjmp => b"longjmp",
            Spelled::Asm => b"asm",
            Spelled::UnderAsm => b"__asm",
            Spelled::UnderAsmUnder => b"__asm__",
            Spelled::UnderBuiltinVaList => b"__builtin_va_list",
            Spelled::UnderBuiltinVaStart => b"__builtin_va_start",
            Spelled::UnderBuiltinVaArg => b"__builtin_va_arg",
            Spelled::UnderBuiltinVaEnd => b"__builtin_va_end",
            Spelled::UnderBuiltinVaCopy => b"__builtin_va_copy",
            Spelled::UnderInt128 => b"__int128",
            Spelled::UnderInt128T => b"__int128_t",
            Spelled::UnderUint128T => b"__uint128_t",
            Spelled::UnderFuncUnder => b"__func__",
            Spelled::UnderFunctionUpperUnder => b"__FUNCTION__",
            Spelled::Typeof => b"typeof",
            Spelled::UnderTypeof => b"__typeof",
            Spelled::UnderTypeofUnder => b"__typeof__",
            Spelled::UnderAutoType => b"__auto_type",
            Spelled::UnderExtensionUnder => b"__extension__",
            Spelled::UnderAttributeUnder => b"__attribute__",
            Spelled::UnderAttribute => b"__attribute",
            Spelled::NamedUnused => b"unused",
            Spelled::NamedUnderUnusedUnder => b"__unused__",
            Spelled::NamedNoreturn => b"noreturn",
            Spelled::NamedUnderNoreturnUnder => b"__noreturn__",
            Spelled::NamedUnderConstUnder => b"__const__",
            Spelled::NamedPure => b"pure",
            Spelled::NamedUnderPureUnder => b"__pure__",
            Spelled::NamedNothrow => b"nothrow",
            Spelled::NamedUnderNothrowUnder => b"__nothrow__",
            Spelled::NamedLeaf => b"leaf",
            Spelled::NamedUnderLeafUnder => b"__leaf__",
            Spelled::NamedNonnull => b"nonnull",
            Spelled::NamedUnderNonnullUnder => b"__nonnull__",
            Spelled::NamedFormat => b"format",
            Spelled::NamedUnderFormatUnder => b"__format__",
            Spelled::NamedMalloc => b"malloc",
            Spelled::NamedUnderMallocUnder => b"__malloc__",
            Spelled::NamedWarnUnusedResult => b"warn_unused_result",
            Spelled::NamedUnderWarnUnusedResultUnder => b"__warn_unused_result__",
            Spelled::NamedDeprecated => b"deprecated",
            Spelled::NamedUnderDeprecatedUnder => b"__deprecated__",
        }
    }

    /// What the word is to the lexer.
    fn meaning(self) -> WordMeaning
        ensures { result ≡ spelled_meaning self }
    {
        match self {
            Spelled::Keyword(keyword) => WordMeaning::Keyword(keyword),
            Spelled::UnderRestrict => WordMeaning::Keyword(Keyword::Restrict),
            Spelled::UnderRestrictUnder => WordMeaning::Keyword(Keyword::Restrict),
            Spelled::UnderInline => WordMeaning::Keyword(Keyword::Inline),
            Spelled::UnderInlineUnder => WordMeaning::Keyword(Keyword::Inline),
            Spelled::UnderConst => WordMeaning::Keyword(Keyword::Const),
            Spelled::UnderSignedUnder => WordMeaning::Keyword(Keyword::Signed),
            Spelled::Float => WordMeaning::Excluded(Feature::Floating),
            Spelled::Double => WordMeaning::Excluded(Feature::Floating),
            Spelled::Volatile => WordMeaning::Excluded(Feature::Volatile),
            Spelled::UnderVolatile => WordMeaning::Excluded(Feature::Volatile),
            Spelled::UnderVolatileUnder => WordMeaning::Excluded(Feature::Volatile),
            Spelled::LowComplex => WordMeaning::Excluded(Feature::Complex),
            Spelled::LowImaginary => WordMeaning::Excluded(Feature::Complex),
            Spelled::LowAtomic => WordMeaning::Excluded(Feature::Atomic),
            Spelled::LowThreadLocal => WordMeaning::Excluded(Feature::ThreadLocal),
            Spelled::UnderThread => WordMeaning::Excluded(Feature::ThreadLocal),
            Spelled::LowAlignas => WordMeaning::Excluded(Feature::Alignas),
            Spelled::LowGeneric => WordMeaning::Excluded(Feature::Generic),
            Spelled::Setjmp => WordMeaning::Excluded(Feature::Jump),
            Spelled::Longjmp => WordMeaning::Excluded(Feature::Jump),
            Spelled::Asm => WordMeaning::Excluded(Feature::Assembly),
            Spelled::UnderAsm => WordMeaning::Excluded(Feature::Assembly),
            Spelled::UnderAsmUnder => WordMeaning::Excluded(Feature::Assembly),
            Spelled::UnderBuiltinVaList => WordMeaning::Excluded(Feature::Varargs),
            Spelled::UnderBuiltinVaStart => WordMeaning::Excluded(Feature::Varargs),
            Spelled::UnderBuiltinVaArg => WordMeaning::Excluded(Feature::Varargs),
            Spelled::UnderBuiltinVaEnd => WordMeaning::Excluded(Feature::Varargs),
            Spelled::UnderBuiltinVaCopy => WordMeaning::Excluded(Feature::Varargs),
            Spelled::UnderInt128 => WordMeaning::Excluded(Feature::Int128),
            Spelled::UnderInt128T => WordMeaning::Excluded(Feature::Int128),
            Spelled::UnderUint128T => WordMeaning::Excluded(Feature::Int128),
            Spelled::UnderFuncUnder => WordMeaning::Excluded(Feature::FuncName),
            Spelled::UnderFunctionUpperUnder => WordMeaning::Excluded(Feature::FuncName),
            Spelled::Typeof => WordMeaning::Excluded(Feature::Typeof),
            Spelled::UnderTypeof => WordMeaning::Excluded(Feature::Typeof),
            Spelled::UnderTypeofUnder => WordMeaning::Excluded(Feature::Typeof),
            Spelled::UnderAutoType => WordMeaning::Excluded(Feature::Typeof),
            Spelled::UnderExtensionUnder => WordMeaning::Skipped,
            Spelled::UnderAttributeUnder | Spelled::UnderAttribute => WordMeaning::Attribute,
            _ => WordMeaning::Name,
        }
    }
}

/// The words with a meaning that begin with the byte, which is no underscore.
#[tactic(auto, unfolding(crate::specs::Words::words_with))]
fn words_with(first: u8) -> &'static [Spelled]
    requires { first ≢ 95 }
    ensures { result.now ≡ words_with first }
{
    match first {
        b'a' => &[Spelled::Asm, Spelled::Keyword(Keyword::Auto)],
        b'b' => &[Spelled::Keyword(Keyword::Break)],
        b'c' => &[
            Spelled::Keyword(Keyword::Case),
            Spelled::Keyword(Keyword::Char),
            Spelled::Keyword(Keyword::Const),
            Spelled::Keyword(Keyword::Continue),
        ],
        b'd' => &[
            Spelled::Keyword(Keyword::Default),
            Spelled::Keyword(Keyword::Do),
            Spelled::Double,
        ],
        b'e' => &[
            Spelled::Keyword(Keyword::Else),
            Spelled::Keyword(Keyword::Enum),
            Spelled::Keyword(Keyword::Extern),
        ],
        b'f' => &[Spelled::Float, Spelled::Keyword(Keyword::For)],
        b'g' => &[Spelled::Keyword(Keyword::Goto)],
        b'i' => &[
            Spelled::Keyword(Keyword::If),
            Spelled::Keyword(Keyword::Inline),
            Spelled::Keyword(Keyword::Int),
        ],
        b'l' => &[Spelled::Keyword(Keyword::Long), Spelled::Longjmp],
        b'r' => &[
            Spelled::Keyword(Keyword::Register),
            Spelled::Keyword(Keyword::Restrict),
            Spelled::Keyword(Keyword::Return),
        ],
        b's' => &[
            Spelled::Setjmp,
            Spelled::Keyword(Keyword::Short),
            Spelled::Keyword(Keyword::Signed),
            Spelled::Keyword(Keyword::Sizeof),
            Spelled::Keyword(Keyword::Static),
            Spelled::Keyword(Keyword::Struct),
            Spelled::Keyword(Keyword::Switch),
        ],
        b't' => &[Spelled::Keyword(Keyword::Typedef), Spelled::Typeof],
        b'u' => &[
            Spelled::Keyword(Keyword::Union),
            Spelled::Keyword(Keyword::Unsigned),
        ],
        b'v' => &[Spelled::Keyword(Keyword::Void), Spelled::Volatile],
        b'w' => &[Spelled::Keyword(Keyword::While)],
        _ => &[],
    }
}

/// Of the words with a meaning that begin with an underscore those that are as long as the text.
#[tactic(auto, unfolding(crate::specs::Words::words_with))]
fn underscored(text: &[u8]) -> &'static [Spelled]
    ensures { found result.now text.now ≡ found (words_with 95) text.now }
{
    match text.len() {
        5 => &[Spelled::Keyword(Keyword::Bool), Spelled::UnderAsm],
        7 => &[
            Spelled::LowAtomic,
            Spelled::UnderAsmUnder,
            Spelled::UnderConst,
        ],
        8 => &[
            Spelled::LowAlignas,
            Spelled::Keyword(Keyword::Alignof),
            Spelled::LowComplex,
            Spelled::LowGeneric,
            Spelled::UnderFuncUnder,
            Spelled::UnderInline,
            Spelled::UnderInt128,
            Spelled::UnderThread,
            Spelled::UnderTypeof,
        ],
        9 => &[Spelled::Keyword(Keyword::Noreturn)],
        10 => &[
            Spelled::LowImaginary,
            Spelled::UnderInlineUnder,
            Spelled::UnderInt128T,
            Spelled::UnderRestrict,
            Spelled::UnderSignedUnder,
            Spelled::UnderTypeofUnder,
            Spelled::UnderVolatile,
        ],
        11 => &[
            Spelled::UnderAttribute,
            Spelled::UnderAutoType,
            Spelled::UnderUint128T,
        ],
        12 => &[
            Spelled::UnderFunctionUpperUnder,
            Spelled::UnderRestrictUnder,
            Spelled::UnderVolatileUnder,
        ],
        13 => &[
            Spelled::LowThreadLocal,
            Spelled::UnderAttributeUnder,
            Spelled::UnderExtensionUnder,
        ],
        14 => &[Spelled::Keyword(Keyword::StaticAssert)],
        16 => &[Spelled::UnderBuiltinVaArg, Spelled::UnderBuiltinVaEnd],
        17 => &[Spelled::UnderBuiltinVaCopy, Spelled::UnderBuiltinVaList],
        18 => &[Spelled::UnderBuiltinVaStart],
        _ => &[],
    }
}

/// Words of which one is the text, if it has a meaning.
fn candidates(text: &[u8]) -> &'static [Spelled]
    ensures { found result.now text.now ≡ found (words_with (first_byte text.now)) text.now }
{
    let first = first_byte(text);
    if first == b'_' {
        underscored(text)
    } else {
        words_with(first)
    }
}

/// Of the names of attributes that are skipped those that are as long as the text (own).
fn skipped_names(text: &[u8]) -> &'static [Spelled]
    ensures { found result.now text.now ≡ found skipped_names text.now }
{
    match text.len() {
        4 => &[Spelled::NamedPure, Spelled::NamedLeaf],
        5 => &[Spelled::Keyword(Keyword::Const)],
        6 => &[
            Spelled::NamedUnused,
            Spelled::NamedFormat,
            Spelled::NamedMalloc,
        ],
        7 => &[Spelled::NamedNothrow, Spelled::NamedNonnull],
        8 => &[
            Spelled::NamedNoreturn,
            Spelled::NamedUnderPureUnder,
            Spelled::NamedUnderLeafUnder,
        ],
        9 => &[Spelled::NamedUnderConstUnder],
        10 => &[
            Spelled::NamedUnderUnusedUnder,
            Spelled::NamedUnderFormatUnder,
            Spelled::NamedUnderMallocUnder,
            Spelled::NamedDeprecated,
        ],
        11 => &[
            Spelled::NamedUnderNothrowUnder,
            Spelled::NamedUnderNonnullUnder,
        ],
        12 => &[Spelled::NamedUnderNoreturnUnder],
        14 => &[Spelled::NamedUnderDeprecatedUnder],
        18 => &[Spelled::NamedWarnUnusedResult],
        22 => &[Spelled::NamedUnderWarnUnusedResultUnder],
        _ => &[],
    }
}

/// The one of some words that is written so.
fn found(words: &[Spelled], text: &[u8]) -> Option<Spelled>
    ensures { result ≡ found words.now text.now }
{
    for word in words {
        if text == word.text() {
            return Some(*word);
        }
    }
    None
}

/// What a word is: a keyword, excluded, passed over, the beginning of an attribute, or an identifier.
#[tactic(auto, unfolding(crate::specs::Words::word_meaning))]
pub fn word_meaning(text: &[u8]) -> WordMeaning
    ensures { result ≡ word_meaning text.now }
{
    match found(candidates(text), text) {
        Some(word) => word.meaning(),
        None => WordMeaning::Name,
    }
}

/// The first byte, or 0.
pub fn first_byte(text: &[u8]) -> u8
    ensures { result ≡ first_byte text.now }
{
    match text {
        [first, ..] => *first,
        [] => 0,
    }
}

/// Whether an attribute of that name is skipped (own).
pub fn is_skipped_name(text: &[u8]) -> bool
    ensures { result ≡ is_skipped_name text.now }
{
    found(skipped_names(text), text).is_some()
}
