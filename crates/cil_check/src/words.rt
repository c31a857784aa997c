ghost use Rattle.std.specs.Prelude.{◌≡◌, map};
ghost use Rattle.std.specs.List.{list_all};
ghost use Rattle.cil_tree.specs.Names.{begins_word, goes_on_word, is_identifier, begins, is_builtin, is_among, keywords, other_words, host_names, is_name, is_plain_name};
ghost use Rattle.cil_check.specs.Words.{words_1, words_2, words_3, words_4, words_5, words_6, words_7, words_8};

/// Whether a text is one of some words.
#[tactic(auto, using(crate::proofs::WordSteps::among_from))]
fn is_among(text: &[u8], words: &[&[u8]]) -> bool
    ensures { result ≡ is_among (map (λ w. w.now) words.now) text.now }
{
    for i in 0..words.len() {
        if text == words[i] {
            return true;
        }
    }
    false
}

/// Whether a text is a keyword of C11 (6.4.1) from `auto` to `enum`.
fn is_word_1(text: &[u8]) -> bool
    ensures { result ≡ is_among words_1 text.now }
{
    let words: [&[u8]; 11] = [
        b"auto",
        b"break",
        b"case",
        b"char",
        b"const",
        b"continue",
        b"default",
        b"do",
        b"double",
        b"else",
        b"enum",
    ];
    is_among(text, &words)
}

/// Whether a text is a keyword of C11 (6.4.1) from `extern` to `return`.
fn is_word_2(text: &[u8]) -> bool
    ensures { result ≡ is_among words_2 text.now }
{
    let words: [&[u8]; 11] = [
        b"extern",
        b"float",
        b"for",
        b"goto",
        b"if",
        b"inline",
        b"int",
        b"long",
        b"register",
        b"restrict",
        b"return",
    ];
    is_among(text, &words)
}

/// Whether a text is a keyword of C11 (6.4.1) from `short` to `volatile`.
fn is_word_3(text: &[u8]) -> bool
    ensures { result ≡ is_among words_3 text.now }
{
    let words: [&[u8]; 11] = [
        b"short",
        b"signed",
        b"sizeof",
        b"static",
        b"struct",
        b"switch",
        b"typedef",
        b"union",
        b"unsigned",
        b"void",
        b"volatile",
    ];
    is_among(text, &words)
}

/// Whether a text is `while` or a keyword of C11 (6.4.1) that begins with an underscore.
fn is_word_4(text: &[u8]) -> bool
    ensures { result ≡ is_among words_4 text.now }
{
    let words: [&[u8]; 11] = [
        b"while",
        b"_Alignas",
        b"_Alignof",
        b"_Atomic",
        b"_Bool",
        b"_Complex",
        b"_Generic",
        b"_Imaginary",
        b"_Noreturn",
        b"_Static_assert",
        b"_Thread_local",
    ];
    is_among(text, &words)
}

/// Whether a text is one of the words that are ignored, or a second spelling of a keyword, from `__extension__` to `__signed__`.
fn is_word_5(text: &[u8]) -> bool
    ensures { result ≡ is_among words_5 text.now }
{
    let words: [&[u8]; 9] = [
        b"__extension__",
        b"__attribute__",
        b"__attribute",
        b"__restrict",
        b"__restrict__",
        b"__inline",
        b"__inline__",
        b"__const",
        b"__signed__",
    ];
    is_among(text, &words)
}

/// Whether a text is one of the words of `volatile`, of threads, jumps and assembly.
fn is_word_6(text: &[u8]) -> bool
    ensures { result ≡ is_among words_6 text.now }
{
    let words: [&[u8]; 8] = [
        b"__volatile",
        b"__volatile__",
        b"__thread",
        b"setjmp",
        b"longjmp",
        b"asm",
        b"__asm",
        b"__asm__",
    ];
    is_among(text, &words)
}

/// Whether a text is one of the words of variable arguments.
fn is_word_7(text: &[u8]) -> bool
    ensures { result ≡ is_among words_7 text.now }
{
    let words: [&[u8]; 5] = [
        b"__builtin_va_list",
        b"__builtin_va_start",
        b"__builtin_va_arg",
        b"__builtin_va_end",
        b"__builtin_va_copy",
    ];
    is_among(text, &words)
}

/// Whether a text is one of the words of wide integers, of function names and of types of expressions.
fn is_word_8(text: &[u8]) -> bool
    ensures { result ≡ is_among words_8 text.now }
{
    let words: [&[u8]; 9] = [
        b"__int128",
        b"__int128_t",
        b"__uint128_t",
        b"__func__",
        b"__FUNCTION__",
        b"typeof",
        b"__typeof",
        b"__typeof__",
        b"__auto_type",
    ];
    is_among(text, &words)
}

/// Whether a text is a keyword of C11 (6.4.1p1).
#[tactic(auto, using(crate::proofs::WordSteps::among_both))]
fn is_keyword(text: &[u8]) -> bool
    ensures { result ≡ is_among keywords text.now }
{
    is_word_1(text) || is_word_2(text) || is_word_3(text) || is_word_4(text)
}

/// Whether a text is a word outside C11's keywords that is ignored, is a second spelling of a keyword, or belongs to
/// a form that this C leaves out (own).
#[tactic(auto, using(crate::proofs::WordSteps::among_both))]
fn is_other_word(text: &[u8]) -> bool
    ensures { result ≡ is_among other_words text.now }
{
    is_word_5(text) || is_word_6(text) || is_word_7(text) || is_word_8(text)
}

/// Whether a text is the name of a function of the host (own).
pub(crate) fn is_host_name(text: &[u8]) -> bool
    ensures { result ≡ is_among host_names text.now }
{
    let words: [&[u8]; 7] = [
        b"getchar",
        b"putchar",
        b"exit",
        b"abort",
        b"malloc",
        b"free",
        b"__builtin_memset",
    ];
    is_among(text, &words)
}

/// Whether a byte may begin an identifier (C11 6.4.2.1).
fn begins_word(b: u8) -> bool
    ensures { result ≡ begins_word b }
{
    b.is_ascii_alphabetic() || b == b'_'
}

/// Whether a byte may stand in an identifier.
fn goes_on_word(b: u8) -> bool
    ensures { result ≡ goes_on_word b }
{
    begins_word(b) || b.is_ascii_digit()
}

/// Whether each byte may stand in an identifier.
#[tactic(auto, using(crate::proofs::TypeSteps::all_from))]
fn all_go_on(text: &[u8]) -> bool
    ensures { result ≡ list_all goes_on_word text.now }
{
    for i in 0..text.len() {
        if !goes_on_word(text[i]) {
            return false;
        }
    }
    true
}

/// Whether a text is an identifier (C11 6.4.2.1).
fn is_identifier(text: &[u8]) -> bool
    ensures { result ≡ is_identifier text.now }
{
    match text {
        [] => false,
        [first, rest @ ..] => begins_word(*first) && all_go_on(rest),
    }
}

/// Whether a text begins with another.
#[tactic(auto, using(crate::proofs::WordSteps::begins_next, crate::proofs::WordSteps::begins_short, crate::proofs::WordSteps::begins_end))]
fn begins(prefix: &[u8], text: &[u8]) -> bool
    ensures { result ≡ begins prefix.now text.now }
{
    for i in 0..prefix.len() {
        if i >= text.len() {
            return false;
        }
        if prefix[i] != text[i] {
            return false;
        }
    }
    true
}

/// Whether a text begins with `__builtin_`.
pub(crate) fn is_builtin(text: &[u8]) -> bool
    ensures { result ≡ is_builtin text.now }
{
    begins(b"__builtin_", text)
}

/// Whether a text is a name: an identifier, no keyword, and none of the other words.
pub(crate) fn is_name(text: &[u8]) -> bool
    ensures { result ≡ is_name text.now }
{
    is_identifier(text) && !is_keyword(text) && !is_other_word(text)
}

/// Whether a text is a name that does not begin with `__builtin_`.
pub(crate) fn is_plain_name(text: &[u8]) -> bool
    ensures { result ≡ is_plain_name text.now }
{
    is_name(text) && !is_builtin(text)
}
