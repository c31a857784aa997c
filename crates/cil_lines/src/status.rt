ghost use Rattle.std.specs.Prelude.{◌≡◌};
ghost use Rattle.cil_lines.specs.Messages.{code_of};

use cil_base::Refusal;

/// How a command of the program ended.
#[derive(Clone, Copy)]
pub enum Status {
    /// The command wrote its whole answer.
    Done,
    /// The program that was run exited with this status.
    Exited(u8),
    /// The program that was run reached its bound of steps.
    StillRunning,
    /// The behaviour of the program that was run is undefined.
    WentUndefined,
    /// The words are no command.
    Usage,
    /// The translation units have this fault.
    Refused(Refusal),
    /// The file is no CIL text, as is seen at this byte.
    NotCil(usize),
    /// A read failed.
    ReadFault,
    /// A write failed.
    WriteFault,
    /// Want of memory.
    Memory,
}

impl Status {
    /// The exit status of the program `cil`. Own: 64 and above are those of BSD's sysexits.h, and 124 and
    /// 125 those of timeout(1).
    pub fn code(&self) -> u8
        ensures { result ≡ code_of self.now }
    {
        match self {
            Status::Done => 0,
            Status::Exited(status) => *status,
            Status::StillRunning => 124,
            Status::WentUndefined => 125,
            Status::Usage => 64,
            Status::Refused(_) => 65,
            Status::NotCil(_) => 65,
            Status::ReadFault => 74,
            Status::WriteFault => 74,
            Status::Memory => 71,
        }
    }
}
