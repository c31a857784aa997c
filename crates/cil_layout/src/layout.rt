ghost use Rattle.std.specs.Prelude.{◌≡◌, ◌&&◌, ◌+◌, ◌^◌, ◌<◌, ◌≤◌, IfSome, length, []};
ghost use Rattle.cil_tree.specs.Declarators.{words_from};
ghost use Rattle.cil_tree.specs.LaidOut.{lines_from, without_blanks, first_bad, bad_place};
ghost use Rattle.cil_layout.specs.Scan.{one_closed, behind_token, read_words, blanks_of, less_if, seen_depth, read_line};

use crate::signs::{is_only, is_token};
use cil_base::TEXT_BYTES;

/// One open brace less, if there is one.
fn one_closed(braces: usize) -> Option<usize>
    ensures { result ≡ one_closed braces }
{
    if braces == 0 { None } else { Some(braces - 1) }
}

/// The braces that are open behind a token, if it is one of C's and closes no brace that is not open.
#[tactic(auto, using(crate::proofs::ScanLaws::opens_is, crate::proofs::ScanLaws::closes_is, crate::proofs::ScanLaws::one_more))]
fn behind_token(token: &[u8], braces: usize) -> Option<usize>
    requires { braces + 1 < 2 ^ 64 }
    ensures told { result ≡ behind_token braces token.now }
    ensures room { IfSome result (λ n. n ≤ braces + 1) }
{
    if !is_token(token) {
        return None;
    }
    if is_only(token, b'{') {
        return Some(braces + 1);
    }
    if is_only(token, b'}') {
        return one_closed(braces);
    }
    Some(braces)
}

/// The braces that are open behind words with one blank between two, if they may stand there.
fn read_words(text: &[u8], braces: usize) -> Option<usize>
    requires { braces + length text.now < 2 ^ 63 }
    ensures told { result ≡ read_words braces (words_from [] text.now) }
    ensures room { IfSome result (λ n. n ≤ braces + length text.now + 1) }
{
    let mut open = braces;
    let mut start = 0;
    for at in 0..text.len() {
        if text[at] == b' ' {
            match behind_token(&text[start..at], open) {
                None => return None,
                Some(next) => {
                    open = next;
                    start = at + 1;
                }
            }
        }
    }
    behind_token(&text[start..], open)
}

/// How many blanks stand in front.
#[tactic(auto, using(crate::proofs::ScanLaws::blanks_within))]
fn blanks(text: &[u8]) -> usize
    ensures told { result ≡ blanks_of text.now }
    ensures within { result ≤ length text.now }
{
    let mut count = 0;
    for b in text {
        if *b != b' ' {
            return count;
        }
        count += 1;
    }
    count
}

/// One less where the test says so, but not less than none.
fn less_if(test: bool, braces: usize) -> usize
    ensures { result ≡ less_if test braces }
{
    if test && braces > 0 {
        return braces - 1;
    }
    braces
}

/// The braces in which a line with these words stands: a `}` at its beginning counts as closed.
#[tactic(auto, using(crate::proofs::ScanLaws::depth_small))]
fn depth(words: &[u8], braces: usize) -> usize
    ensures told { result ≡ seen_depth braces words.now }
    ensures low { result ≤ braces }
{
    match words {
        [] => braces,
        [a] => less_if(*a == b'}', braces),
        [a, b, ..] => less_if(both(*a == b'}', *b == b' '), braces),
    }
}

fn both(a: bool, b: bool) -> bool
    ensures { result ≡ a && b }
{
    if a { b } else { false }
}

/// What stands behind the blanks in front.
#[tactic(auto, using(crate::proofs::ScanLaws::behind_blanks, crate::proofs::ScanLaws::open_range))]
pub fn behind_blanks(text: &[u8]) -> &[u8]
    ensures { result.now ≡ without_blanks text.now }
{
    let count = blanks(text);
    &text[count..]
}

/// The braces that are open behind a line, which is given without its line feed, if it is laid out.
#[tactic(auto, using(crate::proofs::ScanLaws::fewer, crate::proofs::ScanLaws::indented_so, crate::proofs::ScanLaws::indented_otherwise))]
fn read_line(text: &[u8], braces: usize) -> Option<usize>
    requires { braces + length text.now < 2 ^ 62 }
    ensures told { result ≡ read_line braces text.now }
    ensures room { IfSome result (λ n. n ≤ braces + length text.now + 1) }
{
    let indentation = blanks(text);
    let words = behind_blanks(text);
    let wanted = 2 * depth(words, braces);
    if indentation != wanted {
        return None;
    }
    read_words(words, braces)
}

/// The place of the first line that is not laid out, or of the end.
fn first_bad(bytes: &[u8]) -> usize
    requires { length bytes.now < 2 ^ 61 }
    ensures { result ≡ first_bad 0 0 (lines_from [] bytes.now) }
{
    let mut start = 0;
    let mut braces = 0;
    for at in 0..bytes.len() {
        if bytes[at] == b'\n' {
            match read_line(&bytes[start..at], braces) {
                None => return start,
                Some(next) => {
                    braces = next;
                    start = at + 1;
                }
            }
        }
    }
    start
}

/// The place that is named for bytes that are no CIL text: 268,435,456 where there are more bytes; else the first
/// byte of the first line that is not laid out as a text has its lines, or the number of bytes (own).
pub fn bad_place(bytes: &[u8]) -> usize
    ensures { result ≡ bad_place bytes.now }
{
    if bytes.len() > TEXT_BYTES {
        return TEXT_BYTES;
    }
    first_bad(bytes)
}
