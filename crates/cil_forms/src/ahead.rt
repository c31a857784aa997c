ghost use Rattle.std.specs.Prelude.{◌≡◌};
ghost use Rattle.std.specs.Option.{option_map};
ghost use Rattle.cil_text.specs.ReadTypes.{skip_one, is_star, is_suffix, read_name};
ghost use Rattle.cil_text.specs.ReadExps.{form_of, is_base, is_offset};
ghost use Rattle.cil_text.specs.ReadStmts.{is_end_of_line};
ghost use Rattle.cil_text.specs.ReadImages.{is_brace};
ghost use Rattle.cil_text.specs.ReadGlobals.{without_static};
ghost use Rattle.cil_scan.specs.Said.{all_said};
ghost use Rattle.cil_forms.specs.Forms.{form_said, bracketed, closing, void_alone, is_end, ends_opening, ends_case, behind_argument, assigned, behind_item, is_comma};

use cil_base::BinOp;
use cil_scan::Word;

/// What an expression is whose first token is a `(`, by what stands behind it.
#[derive(Clone, Copy)]
pub enum Form {
    Negated,
    Complemented,
    Denied,
    Addressed,
    Pointed,
    Converted,
    Combined,
}

/// Whether a type's first word stands in front (C11 6.7.2).
pub fn is_base(words: &[Word]) -> bool
    ensures { result ≡ is_base (all_said words.now) }
{
    match words {
        [Word::VoidWord, ..] => true,
        [Word::BoolWord, ..] => true,
        [Word::CharWord, ..] => true,
        [Word::ShortWord, ..] => true,
        [Word::IntWord, ..] => true,
        [Word::LongWord, ..] => true,
        [Word::SignedWord, ..] => true,
        [Word::UnsignedWord, ..] => true,
        [Word::TagWord(_), ..] => true,
        _ => false,
    }
}

/// What stands behind a `(`.
pub fn form_of(words: &[Word]) -> Form
    ensures { form_said result ≡ form_of (all_said words.now) }
{
    match words {
        [Word::Operator(BinOp::Sub), ..] => Form::Negated,
        [Word::Tilde, ..] => Form::Complemented,
        [Word::Bang, ..] => Form::Denied,
        [Word::Operator(BinOp::And), ..] => Form::Addressed,
        [Word::Operator(BinOp::Mul), ..] => Form::Pointed,
        [Word::LeftParen, rest @ ..] if is_base(rest) => Form::Converted,
        _ => Form::Combined,
    }
}

/// Whether a step into a part stands in front.
pub fn is_offset(words: &[Word]) -> bool
    ensures { result ≡ is_offset (all_said words.now) }
{
    match words {
        [Word::Dot, ..] => true,
        [Word::LeftBracket, ..] => true,
        _ => false,
    }
}

/// What stands behind a `]` in front.
pub fn bracketed<'w, 'a>(words: &'w [Word<'a>]) -> Option<&'w [Word<'a>]>
    ensures { option_map (λ r. all_said r.now) result ≡ bracketed (all_said words.now) }
{
    match words {
        [Word::RightBracket, rest @ ..] => Some(rest),
        _ => None,
    }
}

/// What stands behind the first word.
pub fn skip_one<'w, 'a>(words: &'w [Word<'a>]) -> &'w [Word<'a>]
    ensures { all_said result.now ≡ skip_one (all_said words.now) }
{
    match words {
        [] => words,
        [_, rest @ ..] => rest,
    }
}

/// Whether a pointer's `*` comes first.
pub fn is_star(words: &[Word]) -> bool
    ensures { result ≡ is_star (all_said words.now) }
{
    match words {
        [Word::Operator(BinOp::Mul), ..] => true,
        _ => false,
    }
}

/// Whether an array's bound or a function's parameters come first.
pub fn is_suffix(words: &[Word]) -> bool
    ensures { result ≡ is_suffix (all_said words.now) }
{
    match words {
        [Word::LeftBracket, ..] => true,
        [Word::LeftParen, ..] => true,
        _ => false,
    }
}

/// The name in front, if one stands there.
pub fn read_name<'w, 'a>(words: &'w [Word<'a>]) -> (Option<&'a [u8]>, &'w [Word<'a>])
    ensures { (option_map (λ t. t.now) result.0, all_said result.1.now) ≡ read_name (all_said words.now) }
{
    match words {
        [Word::Name(text), rest @ ..] => (Some(*text), rest),
        _ => (None, words),
    }
}

/// What stands behind a `)` in front.
pub fn closing<'w, 'a>(words: &'w [Word<'a>]) -> Option<&'w [Word<'a>]>
    ensures { option_map (λ r. all_said r.now) result ≡ closing (all_said words.now) }
{
    match words {
        [Word::RightParen, rest @ ..] => Some(rest),
        _ => None,
    }
}

/// What stands behind `void )` in front.
pub fn void_alone<'w, 'a>(words: &'w [Word<'a>]) -> Option<&'w [Word<'a>]>
    ensures { option_map (λ r. all_said r.now) result ≡ void_alone (all_said words.now) }
{
    match words {
        [Word::VoidWord, Word::RightParen, rest @ ..] => Some(rest),
        _ => None,
    }
}

/// Whether a line ends here.
pub fn is_end(words: &[Word]) -> bool
    ensures { result ≡ is_end (all_said words.now) }
{
    match words {
        [Word::Semicolon] => true,
        _ => false,
    }
}

/// Whether a `return` gives nothing.
pub fn is_end_of_line(words: &[Word]) -> bool
    ensures { result ≡ is_end_of_line (all_said words.now) }
{
    match words {
        [Word::Semicolon, ..] => true,
        _ => false,
    }
}

/// Whether the line of an `if` or `switch` ends here.
pub fn ends_opening(words: &[Word]) -> bool
    ensures { result ≡ ends_opening (all_said words.now) }
{
    match words {
        [Word::RightParen, Word::LeftBrace] => true,
        _ => false,
    }
}

/// Whether the line of a case label ends here.
pub fn ends_case(words: &[Word]) -> bool
    ensures { result ≡ ends_case (all_said words.now) }
{
    match words {
        [Word::Colon, Word::Semicolon] => true,
        _ => false,
    }
}

/// What stands behind an argument, and whether it was the last.
pub fn behind_argument<'w, 'a>(words: &'w [Word<'a>]) -> Option<(bool, &'w [Word<'a>])>
    ensures { option_map (λ r. (r.0, all_said r.1.now)) result ≡ behind_argument (all_said words.now) }
{
    match words {
        [Word::RightParen, rest @ ..] => Some((true, rest)),
        [Word::Comma, rest @ ..] => Some((false, rest)),
        _ => None,
    }
}

/// What stands behind `=`, if it comes first.
pub fn assigned<'w, 'a>(words: &'w [Word<'a>]) -> Option<&'w [Word<'a>]>
    ensures { option_map (λ r. all_said r.now) result ≡ assigned (all_said words.now) }
{
    match words {
        [Word::Assign, rest @ ..] => Some(rest),
        _ => None,
    }
}

/// What stands behind an item, and whether it was the last.
pub fn behind_item<'w, 'a>(words: &'w [Word<'a>]) -> Option<(bool, &'w [Word<'a>])>
    ensures { option_map (λ r. (r.0, all_said r.1.now)) result ≡ behind_item (all_said words.now) }
{
    match words {
        [Word::RightBrace, rest @ ..] => Some((true, rest)),
        [Word::Comma, rest @ ..] => Some((false, rest)),
        _ => None,
    }
}

/// Whether `{` comes first.
pub fn is_brace(words: &[Word]) -> bool
    ensures { result ≡ is_brace (all_said words.now) }
{
    match words {
        [Word::LeftBrace, ..] => true,
        _ => false,
    }
}

/// Whether the line of an enumerator ends here.
pub fn is_comma(words: &[Word]) -> bool
    ensures { result ≡ is_comma (all_said words.now) }
{
    match words {
        [Word::Comma] => true,
        _ => false,
    }
}

/// A line without `static` in front.
pub fn without_static<'w, 'a>(words: &'w [Word<'a>]) -> &'w [Word<'a>]
    ensures { all_said result.now ≡ without_static (all_said words.now) }
{
    match words {
        [Word::StaticWord, rest @ ..] => rest,
        _ => words,
    }
}
