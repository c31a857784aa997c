ghost use Rattle.std.specs.Prelude.{◌≡◌, IfOk, [], ◌++◌};
ghost use Rattle.cil_tree.specs.Declarators.{words_from};
ghost use Rattle.cil_tree.specs.LaidOut.{without_blanks, without_last};
ghost use Rattle.cil_text.specs.Words.{onto};
ghost use Rattle.cil_text.specs.ReadText.{words_in};
ghost use Rattle.cil_scan.specs.Said.{all_said, all_lines};
ghost use Rattle.cil_scan.specs.Lines.{rest_words};

use crate::words::{Word, word_of};
use cil_base::Memory;
use cil_layout::behind_blanks;
use std::alloc::Global;

/// The words between which one blank stands.
#[tactic(auto, using(crate::proofs::LinesLaws::words_on, crate::proofs::LinesLaws::words_blank, crate::proofs::LinesLaws::words_end, crate::proofs::LinesLaws::said_more))]
fn words_between<'a>(alloc: Global, text: &'a [u8]) -> Result<Vec<Word<'a>>, Memory>
    ensures { IfOk result (λ ws. all_said ws.items ≡ onto (words_from [] text.now) []) }
{
    let mut words = Vec::new(alloc);
    let mut start = 0;
    for at in 0..text.len() {
        if text[at] != b' ' {
            continue;
        }
        words.push(word_of(&text[start..at]))?;
        start = at + 1;
    }
    words.push(word_of(&text[start..]))?;
    Ok(words)
}

/// The words of a line, which is given without its last byte.
fn words_of<'a>(alloc: Global, text: &'a [u8]) -> Result<Vec<Word<'a>>, Memory>
    ensures { IfOk result (λ ws. all_said ws.items ≡ onto (words_from [] (without_blanks text.now)) []) }
{
    words_between(alloc, behind_blanks(text))
}

/// Bytes without the last one.
#[tactic(auto, using(crate::proofs::LinesLaws::last_off))]
fn without_last(text: &[u8]) -> &[u8]
    ensures { result.now ≡ without_last text.now }
{
    match text {
        [] => text,
        [front @ .., _] => front,
    }
}

/// Adds the words of what stands behind the last line feed, if anything does.
#[tactic(auto, using(crate::proofs::LinesLaws::lines_more, crate::proofs::LinesLaws::rest_some))]
fn with_rest<'a>(
    alloc: Global,
    lines: Vec<Vec<Word<'a>>>,
    rest: &'a [u8],
) -> Result<Vec<Vec<Word<'a>>>, Memory>
    ensures { IfOk result (λ all. all_lines all.items ≡ all_lines lines.entry.items ++ rest_words rest.now) }
{
    if rest.is_empty() {
        return Ok(lines);
    }
    let mut all = lines;
    all.push(words_of(alloc, without_last(rest))?)?;
    Ok(all)
}

/// The words of each line of a text.
#[tactic(auto, using(crate::proofs::LinesLaws::lines_on, crate::proofs::LinesLaws::lines_feed, crate::proofs::LinesLaws::lines_end, crate::proofs::LinesLaws::lines_more))]
pub fn lines_of<'a>(alloc: Global, bytes: &'a [u8]) -> Result<Vec<Vec<Word<'a>>>, Memory>
    ensures { IfOk result (λ lines. all_lines lines.items ≡ words_in bytes.now) }
{
    let mut lines = Vec::new(alloc);
    let mut start = 0;
    for at in 0..bytes.len() {
        if bytes[at] != b'\n' {
            continue;
        }
        lines.push(words_of(alloc, &bytes[start..at])?)?;
        start = at + 1;
    }
    with_rest(alloc, lines, &bytes[start..])
}
