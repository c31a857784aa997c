ghost use Rattle.std.specs.Prelude.{◌≡◌, ◌≤◌, ◌↔◌, map, decimal, IsTrue, IfSome};
ghost use Rattle.std.specs.List.{list_all};
ghost use Rattle.std.specs.String.{string_bytes};
ghost use Rattle.cil_words.specs.Command.{command_of, command_by_name, merge_of, run_of, run_bounded_of, sample_of, sample_by, number_between, seed_of, units_of, names_file, is_word as is_word_of, are_words as are_words_of};

use cil_base::RUN_STEPS;
use itoa::Buffer;

/// What the words of the command line ask for.
#[derive(Clone, Copy)]
pub enum Command {
    /// `merge [--common] FILE...`: whether tentative definitions of several units are one object, and the position of the first file
    /// among the words, from which all are files.
    Merge { common: bool, first: u32 },
    /// `run [--steps N] FILE [ARG...]`: the bound on steps, and the position of the file among the words.
    Run { steps: u64, file: u32 },
    /// `sample SEED UNITS`: the seed, which is below 2^31, and the number of units, from 1 to 1,000.
    Sample { seed: u32, units: u32 },
}

/// The greatest number of files of a merge.
const MOST_FILES: usize = 1024;

/// The greatest bound on the steps of a run.
const MOST_STEPS: u64 = 1_000_000_000_000;

/// The greatest seed of a sample.
const MOST_SEED: u32 = 2_147_483_647;

/// The greatest number of units of a sample.
const MOST_UNITS: u32 = 1_000;

/// The command that the words behind the program's name are, or none. Own.
pub fn read_words(words: &[String]) -> Option<Command>
    ensures { result ≡ command_of (map string_bytes words.now) }
{
    if !are_words(words) {
        return None;
    }
    match words {
        [name, word, rest @ ..] => named_command(name.as_str(), word, rest),
        _ => None,
    }
}

// The command of that name, with the words behind it.
fn named_command(name: &str, word: &String, rest: &[String]) -> Option<Command>
    ensures { result ≡ command_by_name name.now (string_bytes word.now) (map string_bytes rest.now) }
{
    if name == "merge" {
        merge_command(word, rest)
    } else if name == "run" {
        run_command(word, rest)
    } else if name == "sample" {
        sample_command(word, rest)
    } else {
        None
    }
}

fn merge_command(word: &String, rest: &[String]) -> Option<Command>
    ensures { result ≡ merge_of (string_bytes word.now) (map string_bytes rest.now) }
{
    if word.as_str() == "--common" {
        if rest.len() >= 1 && rest.len() <= MOST_FILES && name_files(rest) {
            Some(Command::Merge {
                common: true,
                first: 2,
            })
        } else {
            None
        }
    } else if rest.len() < MOST_FILES && is_file_name(word.as_bytes()) && name_files(rest) {
        Some(Command::Merge {
            common: false,
            first: 1,
        })
    } else {
        None
    }
}

// Whether each word can name a file.
fn name_files(words: &[String]) -> bool
    ensures { result ≡ list_all names_file (map string_bytes words.now) }
{
    for word in words {
        if !is_file_name(word.as_bytes()) {
            return false;
        }
    }
    true
}

fn run_command(word: &String, rest: &[String]) -> Option<Command>
    ensures { result ≡ run_of (string_bytes word.now) (map string_bytes rest.now) }
{
    if word.as_str() == "--steps" {
        bounded_run(rest)
    } else if is_file_name(word.as_bytes()) {
        Some(Command::Run {
            steps: RUN_STEPS,
            file: 1,
        })
    } else {
        None
    }
}

fn bounded_run(words: &[String]) -> Option<Command>
    ensures { result ≡ run_bounded_of (map string_bytes words.now) }
{
    match words {
        [steps, file, ..] => {
            if is_file_name(file.as_bytes()) {
                number(steps.as_str(), 1, MOST_STEPS).map(|steps| Command::Run { steps, file: 3 })
            } else {
                None
            }
        }
        _ => None,
    }
}

fn sample_command(seed: &String, rest: &[String]) -> Option<Command>
    ensures { result ≡ sample_of (string_bytes seed.now) (map string_bytes rest.now) }
{
    match rest {
        [units] => sample(seed.as_str(), units.as_str()),
        _ => None,
    }
}

// The sample of that seed and that number of units.
fn sample(seed: &str, units: &str) -> Option<Command>
    ensures { result ≡ sample_by (seed_of seed.now) (units_of units.now) }
{
    match (
        small_number(seed, 0, MOST_SEED),
        small_number(units, 1, MOST_UNITS),
    ) {
        (Some(seed), Some(units)) => Some(Command::Sample { seed, units }),
        _ => None,
    }
}

// The number from the least to the greatest that a word spells.
fn small_number(word: &str, least: u32, most: u32) -> Option<u32>
    ensures { result ≡ number_between least most word.now }
{
    match number(word, u64::from(least), u64::from(most)) {
        Some(n) => Some(n as u32),
        None => None,
    }
}

// The number from the least to the greatest that a word spells.
fn number(word: &str, least: u64, most: u64) -> Option<u64>
    ensures is { result ≡ number_between least most word.now }
    ensures within { IfSome result (λ n. n ≤ most) }
{
    match word.parse::<u64>() {
        Ok(n) => {
            if spells(word, n, least, most) {
                Some(n)
            } else {
                None
            }
        }
        Err(_) => None,
    }
}

// Whether a word is the decimal spelling of a number, which is from the least to the greatest.
fn spells(word: &str, n: u64, least: u64, most: u64) -> bool
    ensures { IsTrue result ↔ ((least ≤ n) × ((n ≤ most) × (word.now ≡ decimal n))) }
{
    let mut buffer = Buffer::new();
    n >= least && n <= most && buffer.format(n) == word
}

// Whether a word can name a file.
fn is_file_name(word: &[u8]) -> bool
    ensures { result ≡ names_file word.now }
{
    match word {
        [first, ..] => *first != b'-',
        [] => false,
    }
}

// Whether words can come from an operating system.
fn are_words(words: &[String]) -> bool
    ensures { result ≡ are_words_of (map string_bytes words.now) }
{
    words.len() < 0x0fff_ffff && all_are_words(words)
}

fn all_are_words(words: &[String]) -> bool
    ensures { result ≡ list_all is_word_of (map string_bytes words.now) }
{
    for word in words {
        if !is_word(word.as_bytes()) {
            return false;
        }
    }
    true
}

// Whether a word can come from an operating system.
fn is_word(word: &[u8]) -> bool
    ensures { result ≡ is_word_of word.now }
{
    word.len() < 0x7fff_ffff && !word.contains(&0)
}
