use crate::lexer::{at, read, refusal, tokens_of};
use c_lexer::Tokens;
use cil_base::{Fault, Feature, Keyword, NameId, NamePool, Punctuator, Stop, TokenKind, UnitNo};
use std::alloc::Global;
use std::process::Abort;
use std::test::Fail;

/// Units that are refused, with the fault, its number among the tokens and its line; the last are universal character names, whole or not, in a word or
/// number.
fn refused() -> &'static [(&'static str, Fault, u32, u32)] {
    &[
        ("int a;\nchar *s = \"ab", Fault::Lexical, 7, 2),
        ("double x;", Fault::Excluded(Feature::Floating), 0, 1),
        ("int x = 08;", Fault::Lexical, 3, 1),
        ("int x = 1.5;", Fault::Excluded(Feature::Floating), 3, 1),
        ("int x; float 08", Fault::Excluded(Feature::Floating), 3, 1),
        ("int x; 08 float", Fault::Lexical, 3, 1),
        ("/* \n\n */ asm", Fault::Excluded(Feature::Assembly), 0, 3),
        ("x\n\n/* y\n", Fault::Lexical, 1, 3),
        ("x // y\n/* /", Fault::Lexical, 1, 2),
        ("x // y \\\n'", Fault::Lexical, 1, 2),
        ("a \\\nb", Fault::Lexical, 1, 1),
        (
            "__extension__ __attribute__((unused)) /* c */ a @",
            Fault::Lexical,
            1,
            1,
        ),
        (
            "x\n# pragma pack(1)\n",
            Fault::Excluded(Feature::Pack),
            1,
            2,
        ),
        (
            "x\n__attribute__\n((packed)) y",
            Fault::Excluded(Feature::Attribute),
            1,
            2,
        ),
        (r"a\u00e9", Fault::Excluded(Feature::Universal), 0, 1),
        (r"int\u00e9", Fault::Excluded(Feature::Universal), 0, 1),
        (r"float\u00e9", Fault::Excluded(Feature::Universal), 0, 1),
        (r"a\u12", Fault::Lexical, 1, 1),
        (r"a\U0000", Fault::Lexical, 1, 1),
        (r"a\x41", Fault::Lexical, 1, 1),
        (r"1\u00e9", Fault::Lexical, 0, 1),
        (r"1.5\u00e9", Fault::Lexical, 0, 1),
        (r"1\u12", Fault::Lexical, 1, 1),
    ]
}

/// The first unit of a table that is not refused so.
fn first_other_refusal(
    alloc: Global,
    rows: &[(&'static str, Fault, u32, u32)],
) -> Result<Option<&'static str>, Stop> {
    for (source, fault, token, line) in rows {
        if refusal(alloc, source.as_bytes())? != Some((*fault, at(*token, *line))) {
            return Ok(Some(*source));
        }
    }
    Ok(None)
}

#[test]
fn refuses_the_first_fault_at_its_place(rt: HostRuntime) -> Result<(), Fail> {
    let other = first_other_refusal(rt.alloc(), refused())?;
    assert_eq!(rt; other, None);
    Ok(())
}

/// Units whose tokens are listed.
#[derive(Clone, Copy)]
enum Listed {
    /// `u8` before a character constant is a name.
    Prefix,
    /// A trigraph is left as it stands.
    Trigraph,
    /// A trigraph at the end of a comment's line.
    Comment,
    /// One word is passed over.
    Word,
    /// A marker gives presumed lines.
    Marker,
}

/// Each unit, and the line of its end.
fn lists() -> &'static [(&'static str, Listed, u32)] {
    &[
        ("u8'a' L 'a'", Listed::Prefix, 1),
        ("??<", Listed::Trigraph, 1),
        ("// ??/\nx", Listed::Comment, 2),
        ("__extension__ x __extension__", Listed::Word, 1),
        (
            "__extension__ int a<:0x1FuL:> /* \n */;\n# 70 \"b\\\\.h\" 1\nb >>= 'c'\"d\";\n",
            Listed::Marker,
            71,
        ),
    ]
}

/// The kinds and lines of a unit's tokens.
fn list_of(unit: Listed) -> &'static [(TokenKind, u32)] {
    match unit {
        Listed::Prefix => &[
            (TokenKind::Name(NameId(1)), 1),
            (TokenKind::Character, 1),
            (TokenKind::Name(NameId(2)), 1),
            (TokenKind::Character, 1),
        ],
        Listed::Trigraph => &[
            (TokenKind::Punctuator(Punctuator::Question), 1),
            (TokenKind::Punctuator(Punctuator::Question), 1),
            (TokenKind::Punctuator(Punctuator::Less), 1),
        ],
        Listed::Comment => &[(TokenKind::Name(NameId(1)), 2)],
        Listed::Word => &[(TokenKind::Name(NameId(1)), 1)],
        Listed::Marker => &[
            (TokenKind::Keyword(Keyword::Int), 1),
            (TokenKind::Name(NameId(1)), 1),
            (TokenKind::Punctuator(Punctuator::LeftBracket), 1),
            (TokenKind::Integer, 1),
            (TokenKind::Punctuator(Punctuator::RightBracket), 1),
            (TokenKind::Punctuator(Punctuator::Semicolon), 2),
            (TokenKind::Name(NameId(3)), 70),
            (TokenKind::Punctuator(Punctuator::RightShiftEqual), 70),
            (TokenKind::Character, 70),
            (TokenKind::Literal, 70),
            (TokenKind::Punctuator(Punctuator::Semicolon), 70),
        ],
    }
}

/// The first unit of a table that has other tokens.
fn first_other_list(
    alloc: Global,
    rows: &[(&'static str, Listed, u32)],
) -> Result<Option<&'static str>, Stop> {
    for (source, unit, end) in rows {
        let (found, last) = read(alloc, source.as_bytes())?;
        if found.as_slice() != list_of(*unit) || last != *end {
            return Ok(Some(*source));
        }
    }
    Ok(None)
}

#[test]
fn reads_tokens_with_presumed_lines(rt: HostRuntime) -> Result<(), Fail> {
    let other = first_other_list(rt.alloc(), lists())?;
    assert_eq!(rt; other, None);
    Ok(())
}

/// The texts and lines of a unit's tokens, of which each text is the source from the token's start to its end.
fn texts() -> &'static [(&'static str, u32)] {
    &[
        ("int", 12),
        ("main", 12),
        ("(", 12),
        ("void", 12),
        (")", 12),
        ("{", 13),
        ("return", 13),
        ("y", 13),
        (";", 13),
        ("}", 13),
    ]
}

/// Whether a token has that number, text and line, in the file that is the second name.
fn is_placed(tokens: &Tokens, i: u32, text: &str, line: u32) -> bool {
    if i >= tokens.count() {
        return false;
    }
    let place = tokens.place(i);
    tokens.text(i) == text.as_bytes()
        && (place.token, place.line, place.file, place.unit) == (i, line, NameId(1), UnitNo(3))
}

/// The first of the tokens that is not placed as its row has it.
fn first_misplaced(tokens: &Tokens, rows: &[(&'static str, u32)]) -> Option<u32> {
    let mut i = 0u32;
    for (text, line) in rows {
        if !is_placed(tokens, i, text, *line) {
            return Some(i);
        }
        i = i.wrapping_add(1);
    }
    None
}

/// Whether the pool has the four names, of which a marker's file and a function are two.
fn has_names(names: &NamePool) -> bool {
    names.len() == 4
        && names.text(NameId(1)) == b"dir/x.h".as_slice()
        && names.text(NameId(2)) == b"main".as_slice()
}

/// Reads the unit that the texts are of.
fn texts_and_places(rt: &impl Abort, alloc: Global, names: &mut NamePool) -> Result<(), Stop> {
    let source = b"# 12 \"dir/x.h\" 1\nint main(void)\n{ return y; }".as_slice();
    let tokens = tokens_of(alloc, source, names)?;
    assert_eq!(rt;
        (tokens.count(), first_misplaced(&tokens, texts())),
        (10, None)
    );
    Ok(())
}

#[test]
fn tells_texts_and_places(rt: HostRuntime) -> Result<(), Fail> {
    let mut names = NamePool::new(rt.alloc());
    texts_and_places(&rt, rt.alloc(), &mut names)?;
    assert!(rt; has_names(&names));
    Ok(())
}
