ghost use Rattle.std.specs.Prelude.{◌≡◌, ◌<◌, ◌≤◌, ◌⊎◌, ◌↔◌, [], Ok, Err, Some, None, length, drop, min, unwrap_or, MatchOption, IfOk, IsErr, OnOk, OnErr};
ghost use Rattle.std.specs.List.{Contains};
ghost use Rattle.outside.specs.Counts.{Counts, KeepsLimit, next_number};
ghost use Rattle.outside.specs.Moves.{Reads};
ghost use Rattle.outside.specs.Named.{Opens, Strays, find_file, with_left};
ghost use Rattle.outside.specs.InMemory.{FilesState, files_told, names_in, file_at, number_after, strays_after};

use crate::traits::{Failed, Files};
use std::marker::Model;

/// Files in memory, which fail in the calls whose numbers they were given. Calls of both kinds are
/// numbered from 0; a read into an empty buffer has no number; a number stays at 2^64 - 1. Of two files
/// with one name the first counts. Own.
#[derive(Drop)]
pub struct MemFiles {
    files: Vec<(String, Vec<u8>)>,
    // The place of the file that is open, or the number of files where none is.
    place: usize,
    at: usize,
    fails: Vec<u64>,
    number: u64,
    faults: u64,
    strays: u64,
}

impl Model for MemFiles {
    ghost Value = { FilesState };

    ghost view = { λ s. record {
      names = names_in s.files.items;
      left = drop s.at (file_at s.files.items s.place);
      fails = s.fails.items;
      number = s.number;
      faults = s.faults;
      strays = s.strays;
    } };

    ghost invariant = { λ s. s.at ≤ length (file_at s.files.items s.place) };
}

// The place of the first file of that name.
fn place_of(files: &[(String, Vec<u8>)], name: &str) -> Option<usize>
    ensures { MatchOption result
        (find_file name.now (names_in files.now) ≡ None)
        (λ i. (i < length files.now) × (find_file name.now (names_in files.now) ≡ Some (file_at files.now i))) }
{
    for (i, file) in files.iter().enumerate() {
        if file.0.as_str() == name {
            return Some(i);
        }
    }
    None
}

impl MemFiles {
    /// These files, none of which is open, and which fail in the calls whose numbers are in `fails`.
    pub fn new(files: Vec<(String, Vec<u8>)>, fails: Vec<u64>) -> MemFiles
        ensures { result ≡ record {
          names = names_in files.items;
          left = [];
          fails = fails.items;
          number = 0;
          faults = 0;
          strays = 0;
        } }
    {
        let place = files.len();
        MemFiles {
            files,
            place,
            at: 0,
            fails,
            number: 0,
            faults: 0,
            strays: 0,
        }
    }
}

impl Files for MemFiles {
    ghost told = { λ s. Some (files_told s) };

    ghost faults = { λ s. s.faults };

    ghost strays = { λ s. s.strays };

    /// Opens the first file of that name, and is `Failed` exactly where there is none or its number is
    /// among those that fail.
    fn open_file(&mut self, name: &str) -> Result<(), Failed>
        ensures opens { OnOk result (Opens (Some (files_told self.old)) (Some (files_told self.new)) name.now) }
        ensures failed { OnErr result (Some (files_told self.new) ≡ Some (with_left [] (files_told self.old))) }
        ensures missing { find_file name.now self.old.names ≡ None → IsErr result }
        ensures count { Counts self.old.faults self.new.faults result }
        ensures limit { KeepsLimit self.old.faults self.new.faults }
        ensures strays { Strays (Some (files_told self.old)) name.now self.old.strays self.new.strays }
        ensures stray_limit { KeepsLimit self.old.strays self.new.strays }
        ensures when { IsErr result
            ↔ (Contains self.old.fails self.old.number ⊎ (find_file name.now self.old.names ≡ None)) }
        ensures opened { OnOk result (self.new ≡ record self.old {
          left = unwrap_or (find_file name.now self.old.names) [];
          number = next_number self.old.number;
        }) }
        ensures closed { OnErr result (self.new ≡ record self.old {
          left = [];
          number = next_number self.old.number;
          faults = next_number self.old.faults;
          strays = strays_after (find_file name.now self.old.names) self.old.strays;
        }) }
    {
        let number = self.number;
        self.number = number.saturating_add(1);
        self.at = 0;
        self.place = self.files.len();
        let Some(place) = place_of(&self.files, name) else {
            self.strays = self.strays.saturating_add(1);
            self.faults = self.faults.saturating_add(1);
            return Err(Failed);
        };
        if self.fails.contains(&number) {
            self.faults = self.faults.saturating_add(1);
            return Err(Failed);
        }
        self.place = place;
        Ok(())
    }

    /// Moves as many bytes as the buffer and what is left allow, and is `Failed` exactly where its number
    /// is among those that fail.
    fn read(&mut self, buf: &mut [u8]) -> Result<usize, Failed>
        ensures read { IfOk result (λ n. Reads (Some self.old.left) (Some self.new.left) buf.old buf.new n) }
        ensures names { Some self.new.names ≡ Some self.old.names }
        ensures failed { OnErr result (Some (files_told self.new) ≡ Some (files_told self.old)) }
        ensures empty { length buf.old ≡ 0 → result ≡ Ok 0 }
        ensures count { Counts self.old.faults self.new.faults result }
        ensures limit { KeepsLimit self.old.faults self.new.faults }
        ensures strays { self.new.strays ≡ self.old.strays }
        ensures when { IsErr result ↔ ((0 < length buf.old) × Contains self.old.fails self.old.number) }
        ensures amount { IfOk result (λ n. n ≡ min (length buf.old) (length self.old.left)) }
        ensures moved { IfOk result (λ n. self.new ≡ record self.old {
          left = drop n self.old.left;
          number = number_after (length buf.old) self.old.number;
        }) }
        ensures stays { OnErr result ((buf.new ≡ buf.old) × (self.new ≡ record self.old {
          number = next_number self.old.number;
          faults = next_number self.old.faults;
        })) }
    {
        if buf.is_empty() {
            return Ok(0);
        }
        let number = self.number;
        self.number = number.saturating_add(1);
        if self.fails.contains(&number) {
            self.faults = self.faults.saturating_add(1);
            return Err(Failed);
        }
        let Some((_, bytes)) = self.files.get(self.place) else {
            return Ok(0);
        };
        let n = buf.len().min(bytes.len() - self.at);
        buf[..n].copy_from_slice(&bytes[self.at..self.at + n]);
        self.at += n;
        Ok(n)
    }
}
