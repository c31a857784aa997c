ghost use Rattle.std.specs.Prelude.{◌≡◌, ℕ, Option, Ok, None, List, [], length, option_map, IfOk, IfSome, IsErr, OnOk, OnErr};
ghost use Rattle.outside.specs.Counts.{Counts, KeepsLimit};
ghost use Rattle.outside.specs.Moves.{Reads, Writes};
ghost use Rattle.outside.specs.Named.{Told, Opens, Strays, find_file, left_of, names_of, with_left};

use thiserror::Error;

/// A call on the outside failed. It moved no byte.
#[derive(Clone, Copy, Debug, PartialEq, Eq, Error)]
#[error("a call on the outside failed")]
pub struct Failed;

/// Files that are opened by name, one after the other, and read from front to end. Before the first
/// `open_file` nothing is left. Own.
pub trait Files {
    // The bytes under each name and what is left, or `None` where the files do not tell.
    ghost told: { Self → Option Told };

    // How many calls failed.
    ghost faults: { Self → ℕ };

    // How many calls opened a name that is not there.
    ghost strays: { Self → ℕ };

    /// Makes the bytes under the name what is left. A name that is not there is `Failed`, and after
    /// `Failed` nothing is left.
    fn open_file(&mut self, name: &str) -> Result<(), Failed>
        ensures opens { OnOk result (Opens (told self.old) (told self.new) name.now) }
        ensures failed { OnErr result (told self.new ≡ option_map (with_left []) (told self.old)) }
        ensures missing { IfSome (told self.old) (λ t. find_file name.now t.names ≡ None → IsErr result) }
        ensures count { Counts (faults self.old) (faults self.new) result }
        ensures limit { KeepsLimit (faults self.old) (faults self.new) }
        ensures strays { Strays (told self.old) name.now (strays self.old) (strays self.new) }
        ensures stray_limit { KeepsLimit (strays self.old) (strays self.new) };

    /// Moves bytes from the front of what is left into the front of the buffer, and answers how many:
    /// 0 only for an empty buffer, which never fails, or where nothing is left. After `Failed` what is
    /// left is as before.
    fn read(&mut self, buf: &mut [u8]) -> Result<usize, Failed>
        ensures read { IfOk result (λ n. Reads (left_of (told self.old)) (left_of (told self.new)) buf.old buf.new n) }
        ensures names { names_of (told self.new) ≡ names_of (told self.old) }
        ensures failed { OnErr result (told self.new ≡ told self.old) }
        ensures empty { length buf.old ≡ 0 → result ≡ Ok 0 }
        ensures count { Counts (faults self.old) (faults self.new) result }
        ensures limit { KeepsLimit (faults self.old) (faults self.new) }
        ensures strays { strays self.new ≡ strays self.old };
}

/// A source of bytes, which is read from front to end. Own.
pub trait Source {
    // The bytes that are left, or `None` where the source does not tell.
    ghost left: { Self → Option (List ℕ) };

    // How many calls failed.
    ghost faults: { Self → ℕ };

    /// Moves bytes from the front of what is left into the front of the buffer, and answers how many:
    /// 0 only for an empty buffer, which never fails, or where nothing is left. After `Failed` what is
    /// left is as before.
    fn read(&mut self, buf: &mut [u8]) -> Result<usize, Failed>
        ensures read { IfOk result (λ n. Reads (left self.old) (left self.new) buf.old buf.new n) }
        ensures failed { OnErr result (left self.new ≡ left self.old) }
        ensures empty { length buf.old ≡ 0 → result ≡ Ok 0 }
        ensures count { Counts (faults self.old) (faults self.new) result }
        ensures limit { KeepsLimit (faults self.old) (faults self.new) };
}

/// A sink of bytes, which takes what is written. Own.
pub trait Sink {
    // The bytes that were taken, or `None` where the sink does not tell.
    ghost taken: { Self → Option (List ℕ) };

    // How many calls failed.
    ghost faults: { Self → ℕ };

    /// Takes bytes from the front of the piece, and answers how many: at least 1 for a piece that is not
    /// empty, and 0 for an empty one, which never fails. After `Failed` what was taken is as before.
    fn write(&mut self, bytes: &[u8]) -> Result<usize, Failed>
        ensures write { IfOk result (λ n. Writes (taken self.old) (taken self.new) bytes.now n) }
        ensures failed { OnErr result (taken self.new ≡ taken self.old) }
        ensures empty { length bytes.now ≡ 0 → result ≡ Ok 0 }
        ensures count { Counts (faults self.old) (faults self.new) result }
        ensures limit { KeepsLimit (faults self.old) (faults self.new) };
}
