ghost use Rattle.std.specs.Prelude.{◌≡◌, ◌<◌, ◌≤◌, ◌^◌, ◌++◌, length, IfOk, IfSome, false, not, ◌&&◌, ◌==◌};
ghost use Rattle.std.specs.Int.{is_in_range};
ghost use Rattle.std.specs.Option.{option_map};
ghost use Rattle.c_lexer.specs.Languages.{is_nil};
ghost use Rattle.c_lexer.specs.Lines.{behind_blanks, number_from, number_at, file_len, unescaped, file_of, are_flags, marker_end, marker_file, marker, ends_word, begins_with_word, ends_with_backslash, pragma, line_behind_hash, line_of, has_line_feed};
ghost use Rattle.c_lexer.specs.View.{line_view, HasLine};

use crate::bytes::{is_blank, is_word_byte};
use cil_base::Memory;
use std::alloc::Global;

/// The greatest line that a marker may give (own).
const LAST_LINE: u64 = 2_147_483_647;

/// What a line that begins with `#` says (C11 6.10.4, 6.10.6; its exact form is own).
#[derive(Drop)]
pub enum Directive {
    /// The presumed line and file of the next line.
    Marker(u32, Vec<u8>),
    /// It is passed over.
    Pragma,
    /// `#pragma pack`, which is excluded.
    Pack,
    /// It is a lexical fault.
    Bad,
}

/// What stands behind the blanks with which the text begins.
fn behind_blanks(text: &[u8]) -> &[u8]
    ensures { result.now ≡ behind_blanks text.now }
{
    for (i, b) in text.iter().enumerate() {
        if !is_blank(*b) {
            return text.split_at(i).1;
        }
    }
    &[]
}

/// Decimal digits as a number that goes on from a value, and what stands behind them.
fn number_from(value: u32, text: &[u8]) -> Option<(u32, &[u8])>
    requires { value < 2 ^ 31 }
    ensures value { option_map (λ p. (p.0, p.1.now)) result ≡ number_from value text.now }
    ensures small { IfSome result (λ p. p.0 < 2 ^ 31) }
{
    let mut sum = value;
    for (i, b) in text.iter().enumerate() {
        if !b.is_ascii_digit() {
            return Some((sum, text.split_at(i).1));
        }
        let more = u64::from(sum) * 10 + u64::from(*b - b'0');
        if more > LAST_LINE {
            return None;
        }
        sum = more as u32;
    }
    Some((sum, &[]))
}

/// A number without a leading zero, and what stands behind it.
fn number_at(text: &[u8]) -> Option<(u32, &[u8])>
    ensures value { option_map (λ p. (p.0, p.1.now)) result ≡ number_at text.now }
    ensures small { IfSome result (λ p. p.0 < 2 ^ 31) }
{
    match text {
        [] => None,
        [b, more @ ..] => {
            if *b == b'0' {
                return Some((0, more));
            }
            if !b.is_ascii_digit() {
                return None;
            }
            number_from(u32::from(*b - b'0'), more)
        }
    }
}

/// Whether the byte is a backslash that takes the byte behind it with it.
fn escapes(escaped: bool, b: u8) -> bool
    ensures { result ≡ (not escaped && b == 92) }
{
    !escaped && b == b'\\'
}

fn closes(escaped: bool, b: u8) -> bool
    ensures { result ≡ (not escaped && b == 34) }
{
    !escaped && b == b'"'
}

/// How many bytes stand before the quote that closes a file name.
fn file_len(text: &[u8]) -> Option<usize>
    ensures value { result ≡ file_len 0 false text.now }
    ensures within { IfSome result (λ n. n < length text.now) }
{
    let mut escaped = false;
    for (i, b) in text.iter().enumerate() {
        if closes(escaped, *b) {
            return Some(i);
        }
        escaped = escapes(escaped, *b);
    }
    None
}

/// Appends the byte, with the backslash before it if that stands for itself.
fn put(name: &mut Vec<u8>, escaped: bool, b: u8) -> Result<(), Memory>
    ensures { IfOk result (λ _. name.new.items ≡ name.old.items ++ unescaped escaped b) }
{
    if escaped && b != b'\\' && b != b'"' {
        name.push(b'\\')?;
    }
    if escaped || b != b'\\' {
        name.push(b)?;
    }
    Ok(())
}

/// A file's name, as it is written between quotes.
fn file_of(alloc: Global, text: &[u8]) -> Result<Vec<u8>, Memory>
    ensures { IfOk result (λ name. name.items ≡ file_of false text.now) }
{
    let mut name = Vec::new(alloc);
    let mut escaped = false;
    for b in text {
        put(&mut name, escaped, *b)?;
        escaped = escapes(escaped, *b);
    }
    Ok(name)
}

fn is_nil(text: &[u8]) -> bool
    ensures { result ≡ is_nil text.now }
{
    match text {
        [] => true,
        _ => false,
    }
}

fn is_flag(b: u8) -> bool
    ensures { result ≡ is_in_range 49 52 b }
{
    b >= b'1' && b <= b'4'
}

/// Flags from 1 to 4, each behind a blank, up to the line's end.
fn are_flags(text: &[u8]) -> bool
    ensures { result ≡ are_flags false text.now }
{
    let mut blank = false;
    for (i, b) in text.iter().enumerate() {
        if *b == b'\n' {
            return is_nil(text.split_at(i + 1).1);
        }
        if is_blank(*b) {
            blank = true;
        } else if blank && is_flag(*b) {
            blank = false;
        } else {
            return false;
        }
    }
    true
}

/// A marker behind the opening quote of its file name.
fn marker_end(alloc: Global, line: u32, text: &[u8]) -> Result<Directive, Memory>
    requires { line < 2 ^ 31 }
    ensures says { IfOk result (λ d. line_view d ≡ marker_end line text.now (file_len 0 false text.now)) }
    ensures line { IfOk result HasLine }
{
    match file_len(text) {
        Some(n) => {
            if !are_flags(text.split_at(n + 1).1) {
                return Ok(Directive::Bad);
            }
            let name = file_of(alloc, text.split_at(n).0)?;
            Ok(Directive::Marker(line, name))
        }
        None => Ok(Directive::Bad),
    }
}

/// A marker behind its number and blanks.
fn marker_file(alloc: Global, line: u32, text: &[u8]) -> Result<Directive, Memory>
    requires { line < 2 ^ 31 }
    ensures says { IfOk result (λ d. line_view d ≡ marker_file line text.now) }
    ensures line { IfOk result HasLine }
{
    match text {
        [] => Ok(Directive::Bad),
        [b, more @ ..] => {
            if *b == b'"' {
                marker_end(alloc, line, more)
            } else {
                Ok(Directive::Bad)
            }
        }
    }
}

/// A line marker behind its `#` and blanks (C11 6.10.4, as a preprocessor leaves it).
fn marker(alloc: Global, text: &[u8]) -> Result<Directive, Memory>
    ensures says { IfOk result (λ d. line_view d ≡ marker text.now) }
    ensures line { IfOk result HasLine }
{
    match number_at(text) {
        Some((line, more)) => marker_file(alloc, line, behind_blanks(more)),
        None => Ok(Directive::Bad),
    }
}

fn ends_word(text: &[u8]) -> bool
    ensures { result ≡ ends_word text.now }
{
    match text {
        [] => true,
        [b, ..] => !is_word_byte(*b),
    }
}

fn begins_with_word(word: &[u8], text: &[u8]) -> bool
    ensures { result ≡ begins_with_word word.now text.now }
{
    match text.strip_prefix(word) {
        Some(behind) => ends_word(behind),
        None => false,
    }
}

fn ends_with_backslash(text: &[u8]) -> bool
    ensures { result ≡ ends_with_backslash text.now }
{
    text.ends_with(b"\\") || text.ends_with(b"\\\n")
}

/// A pragma behind its word (C11 6.10.6).
fn pragma(text: &[u8]) -> Directive
    ensures says { line_view result ≡ pragma text.now }
    ensures line { HasLine result }
{
    if ends_with_backslash(text) {
        return Directive::Bad;
    }
    if begins_with_word(b"pack", behind_blanks(text)) {
        Directive::Pack
    } else {
        Directive::Pragma
    }
}

fn line_behind_hash(alloc: Global, text: &[u8]) -> Result<Directive, Memory>
    ensures says { IfOk result (λ d. line_view d ≡ line_behind_hash text.now) }
    ensures line { IfOk result HasLine }
{
    if begins_with_word(b"pragma", text) {
        return Ok(pragma(text.split_at(6).1));
    }
    marker(alloc, text)
}

/// What a line says, from its `#` on.
pub fn line_of(alloc: Global, text: &[u8]) -> Result<Directive, Memory>
    requires { 1 ≤ length text.now }
    ensures says { IfOk result (λ d. line_view d ≡ line_of text.now) }
    ensures line { IfOk result HasLine }
{
    line_behind_hash(alloc, behind_blanks(text.split_at(1).1))
}

/// Whether a line has its line feed.
pub fn has_line_feed(text: &[u8]) -> bool
    ensures { result ≡ has_line_feed text.now }
{
    text.ends_with(b"\n")
}
