ghost use Rattle.std.specs.Prelude.{◌≡◌, ◌≤◌, length};
ghost use Rattle.std.specs.Option.{option_map};
ghost use Rattle.cil_text.specs.ReadTypes.{skip_one};
ghost use Rattle.cil_text.specs.ReadGlobals.{is_open_brace, ends_open, from_name, first_name, names_function, is_called, has_assign, declares_alone, declares};
ghost use Rattle.cil_scan.specs.Said.{said, all_said, all_lines};
ghost use Rattle.cil_forms.specs.LineKinds.{is_name, behind_word, is_assign, next_name, storage};
ghost use Rattle.std.specs.Str.{bytes_eq};
ghost use Rattle.cil_text.specs.ReadAggregates.{is_close, opened_tag, lone_tag};
ghost use Rattle.cil_text.specs.ReadStmts.{memset, is_zero, opens_address, behind_address, is_label, label_text};
ghost use Rattle.cil_forms.specs.Forms.{is_block, is_jump};

use cil_base::BinOp;
use cil_scan::Word;
use type_graph::AggKind;

/// Whether a word is `{`.
fn is_open_brace(word: &Word) -> bool
    ensures { result ≡ is_open_brace (said word.now) }
{
    match word {
        Word::LeftBrace => true,
        _ => false,
    }
}

/// Whether a line opens a block.
#[tactic(auto, using(crate::proofs::LineKindLaws::no_words, crate::proofs::LineKindLaws::last_word))]
pub fn ends_open(words: &[Word]) -> bool
    ensures { result ≡ ends_open (all_said words.now) }
{
    if words.is_empty() {
        return false;
    }
    is_open_brace(&words[words.len() - 1])
}

/// Whether a word is a name.
fn is_name(word: &Word) -> bool
    ensures { result ≡ is_name word.now }
{
    match word {
        Word::Name(_) => true,
        _ => false,
    }
}

/// What stands behind the first word, if any.
fn skipped<'w, 'a>(words: &'w [Word<'a>]) -> &'w [Word<'a>]
    ensures is { all_said result.now ≡ skip_one (all_said words.now) }
    ensures shorter { length result.now ≤ length words.now }
{
    match words {
        [] => words,
        [_, rest @ ..] => rest,
    }
}

/// What stands behind a word that is no name, and behind a tag.
fn behind_word<'w, 'a>(word: &Word, words: &'w [Word<'a>]) -> &'w [Word<'a>]
    ensures is { all_said result.now ≡ behind_word word.now (all_said words.now) }
    ensures shorter { length result.now ≤ length words.now }
{
    match word {
        Word::TagWord(_) => skipped(words),
        _ => words,
    }
}

/// The words from the first name on that stands behind no `struct`, `union` or `enum`.
#[tactic(auto, using(crate::proofs::LineKindLaws::from_here, crate::proofs::LineKindLaws::from_later))]
fn from_name<'w, 'a>(words: &'w [Word<'a>]) -> &'w [Word<'a>]
    ensures { all_said result.now ≡ from_name (all_said words.now) }
{
    let mut rest = words;
    while let [word, behind @ ..] = rest {
        if is_name(word) {
            return rest;
        }
        rest = behind_word(word, behind);
    }
    rest
}

/// What a line declares.
fn first_name<'a>(words: &[Word<'a>]) -> Option<&'a [u8]>
    ensures { option_map (λ n. n.now) result ≡ first_name (all_said words.now) }
{
    match from_name(words) {
        [Word::Name(name), ..] => Some(*name),
        _ => None,
    }
}

/// Whether a line's first name is that of a function, whose parameters stand right behind it (C11 6.7.6.3).
fn names_function(words: &[Word]) -> bool
    ensures { result ≡ names_function (all_said words.now) }
{
    match from_name(words) {
        [Word::Name(_), Word::LeftParen, ..] => true,
        _ => false,
    }
}

/// Whether a word is `=`.
fn is_assign(word: &Word) -> bool
    ensures { result ≡ is_assign word.now }
{
    match word {
        Word::Assign => true,
        _ => false,
    }
}

/// Whether `=` stands in a line.
#[tactic(auto, using(crate::proofs::LineKindLaws::assign_here, crate::proofs::LineKindLaws::assign_later))]
fn has_assign(words: &[Word]) -> bool
    ensures { result ≡ has_assign (all_said words.now) }
{
    let mut rest = words;
    while let [word, behind @ ..] = rest {
        if is_assign(word) {
            return true;
        }
        rest = behind;
    }
    false
}

/// Whether a storage class makes a global internal, if one comes first; and what stands behind it.
pub fn storage<'w, 'a>(words: &'w [Word<'a>]) -> Option<(bool, &'w [Word<'a>])>
    ensures { option_map (λ x. (x.0, all_said x.1.now)) result ≡ storage (all_said words.now) }
{
    match words {
        [Word::ExternWord, rest @ ..] => Some((false, rest)),
        [Word::StaticWord, rest @ ..] => Some((true, rest)),
        _ => None,
    }
}

/// Whether a line without a block declares alone: an object that is external, what is internal and has no `=`, or a
/// function.
#[tactic(auto, using(crate::proofs::LineKindLaws::alone_external, crate::proofs::LineKindLaws::alone_internal, crate::proofs::LineKindLaws::alone_named))]
fn declares_alone(words: &[Word]) -> bool
    ensures { result ≡ declares_alone (all_said words.now) }
{
    match storage(words) {
        Some((false, _)) => true,
        Some((true, rest)) => !has_assign(rest),
        None => names_function(words),
    }
}

/// Whether a line declares alone.
#[tactic(auto, using(crate::proofs::LineKindLaws::declares_open, crate::proofs::LineKindLaws::declares_shut))]
pub fn declares(words: &[Word]) -> bool
    ensures { result ≡ declares (all_said words.now) }
{
    if ends_open(words) {
        return false;
    }
    declares_alone(words)
}

/// What the next line defines, if it opens no block.
#[tactic(auto, using(crate::proofs::LineKindLaws::next_open, crate::proofs::LineKindLaws::next_shut))]
pub fn next_name<'a>(lines: &[Vec<Word<'a>>]) -> Option<&'a [u8]>
    ensures { option_map (λ n. n.now) result ≡ next_name (all_lines lines.now) }
{
    let [line, ..] = lines else {
        return None;
    };
    if ends_open(line) {
        return None;
    }
    first_name(line)
}

/// Whether what was found is this name.
pub fn is_called(found: Option<&[u8]>, name: &[u8]) -> bool
    ensures { result ≡ is_called (option_map (λ n. n.now) found.entry) name.now }
{
    match found {
        None => false,
        Some(own) => own == name,
    }
}

/// Whether a line closes a block.
pub fn is_close(words: &[Word]) -> bool
    ensures { result ≡ is_close (all_said words.now) }
{
    match words {
        [Word::RightBrace, ..] => true,
        _ => false,
    }
}

/// The tag in the line that opens an aggregate.
pub fn opened_tag<'a>(words: &[Word<'a>]) -> Option<&'a [u8]>
    ensures { option_map (λ t. t.now) result ≡ opened_tag (all_said words.now) }
{
    match words {
        [Word::TagWord(_), Word::Name(tag), Word::LeftBrace, ..] => Some(*tag),
        _ => None,
    }
}

/// The tag of a struct or union in a line of its own.
pub fn lone_tag<'a>(words: &[Word<'a>]) -> Option<(AggKind, &'a [u8])>
    ensures { option_map (λ t. (t.0, t.1.now)) result ≡ lone_tag (all_said words.now) }
{
    match words {
        [Word::TagWord(AggKind::Enum), ..] => None,
        [Word::TagWord(kind), Word::Name(tag), Word::Semicolon, ..] => Some((*kind, *tag)),
        _ => None,
    }
}

/// Whether a label stands in front (C11 6.8.1).
pub fn is_label(words: &[Word]) -> bool
    ensures { result ≡ is_label (all_said words.now) }
{
    match words {
        [Word::Name(_), Word::Colon, ..] => true,
        _ => false,
    }
}

/// The name in front, or no text.
pub fn label_text<'w, 'a>(words: &'w [Word<'a>]) -> &'a [u8]
    ensures { result.now ≡ label_text (all_said words.now) }
{
    match words {
        [Word::Name(name), ..] => *name,
        _ => b"",
    }
}

/// Whether a line opens a part of a statement, or closes one (C11 6.8.2, 6.8.4, 6.8.5).
pub fn is_block(words: &[Word]) -> bool
    ensures { result ≡ is_block (all_said words.now) }
{
    match words {
        [Word::IfWord, ..] => true,
        [Word::SwitchWord, ..] => true,
        [Word::WhileWord, ..] => true,
        [Word::LeftBrace, ..] => true,
        [Word::RightBrace, ..] => true,
        _ => false,
    }
}

/// Whether a line has a case label or a jump (C11 6.8.1, 6.8.6).
pub fn is_jump(words: &[Word]) -> bool
    ensures { result ≡ is_jump (all_said words.now) }
{
    match words {
        [Word::CaseWord, ..] => true,
        [Word::DefaultWord, ..] => true,
        [Word::GotoWord, ..] => true,
        [Word::BreakWord, ..] => true,
        [Word::ReturnWord, ..] => true,
        _ => false,
    }
}

/// Whether a name is that of the function that fills objects.
fn is_memset(name: &[u8]) -> bool
    ensures { result ≡ bytes_eq name.now memset }
{
    name == b"__builtin_memset".as_slice()
}

/// Whether an address stands in front.
fn opens_address(words: &[Word]) -> bool
    ensures { result ≡ opens_address (all_said words.now) }
{
    match words {
        [Word::LeftParen, Word::Operator(BinOp::And), ..] => true,
        _ => false,
    }
}

/// Whether a line fills an object with zero bytes.
pub fn is_zero(words: &[Word]) -> bool
    ensures { result ≡ is_zero (all_said words.now) }
{
    match words {
        [Word::Name(name), Word::LeftParen, rest @ ..] => is_memset(name) && opens_address(rest),
        _ => false,
    }
}

/// What stands behind the four words in front of a zero fill's place.
#[tactic(auto, using(crate::proofs::FormLaws::rest_of))]
pub fn behind_address<'w, 'a>(words: &'w [Word<'a>]) -> &'w [Word<'a>]
    ensures { all_said result.now ≡ behind_address (all_said words.now) }
{
    match words {
        [_, _, _, _, rest @ ..] => rest,
        [_, _, _] => &words[3..],
        [_, _] => &words[2..],
        [_] => &words[1..],
        [] => words,
    }
}
