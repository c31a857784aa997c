ghost use Rattle.std.specs.Prelude.{◌≡◌, ℕ, None};

use crate::traits::{Failed, Files};
use std::fs::File;
use std::io::Read;
use std::marker::Model;

/// The files of the host. It tells contracts nothing of them. Own.
#[derive(Drop)]
pub struct HostFiles<'a> {
    rt: &'a HostRuntime,
    open: Option<File>,
    faults: u64,
}

// Contracts see the count of faults.
impl<'a> Model for HostFiles<'a> {
    ghost Value = { ℕ };

    ghost view = { λ s. s.faults };
}

impl<'a> HostFiles<'a> {
    /// The files of the host, none of which is open.
    pub fn new(rt: &'a HostRuntime) -> HostFiles<'a>
        ensures { result ≡ 0 }
    {
        HostFiles {
            rt,
            open: None,
            faults: 0,
        }
    }
}

impl Files for HostFiles<'_> {
    ghost told = { λ _. None };

    ghost faults = { λ s. s };

    ghost strays = { λ _. 0 };

    /// Opens the file of that name for reading, and is `Failed` where the host reports an error.
    fn open_file(&mut self, name: &str) -> Result<(), Failed> {
        self.open = None;
        match File::open(self.rt, name) {
            Ok(file) => {
                self.open = Some(file);
                Ok(())
            }
            Err(_) => {
                self.faults = self.faults.saturating_add(1);
                Err(Failed)
            }
        }
    }

    /// Reads from the file that is open, and is `Failed` where the host reports an error.
    fn read(&mut self, buf: &mut [u8]) -> Result<usize, Failed> {
        if buf.is_empty() {
            return Ok(0);
        }
        let Some(file) = &mut self.open else {
            return Ok(0);
        };
        match file.read(buf) {
            Ok(n) => Ok(n),
            Err(_) => {
                self.faults = self.faults.saturating_add(1);
                Err(Failed)
            }
        }
    }
}
