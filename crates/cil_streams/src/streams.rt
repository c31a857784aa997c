ghost use Rattle.std.specs.Prelude.{◌≡◌, ◌<◌, ◌≤◌, ◌⊎◌, None, [], length, IfOk, OnOk};
ghost use Rattle.byte_mem.specs.Store.{memory};
ghost use Rattle.host_calls.specs.Counted.{IsCounted};
ghost use Rattle.outside.specs.Counts.{Counts, KeepsLimit};
ghost use Rattle.outside.specs.Moves.{Wrote, Began};
ghost use Rattle.cil_streams.specs.Held.{StreamsState, Asks, IsUsedUp, fresh, held_by, host_part};
ghost use Rattle.cil_streams.specs.Fetching.{Fetches};

use crate::ahead::Ahead;
use crate::ends::HostEnd;
use crate::waiting::{write_many, write_waiting};
use byte_mem::{Scalar, Store, Value};
use host_calls::{HostName, HostResult, Io, host};
use outside::{Failed, Sink, Source};
use std::alloc::{AllocError, Global};
use std::marker::Model;

/// The input and output of a run, and what the host keeps of `malloc`. Own.
#[derive(Drop)]
pub struct Streams {
    alloc: Global,
    io: Io,
    ahead: Ahead,
}

impl Model for Streams {
    ghost Value = { StreamsState };

    ghost view = { λ s. held_by s.io s.ahead };

    ghost invariant = { λ s. (s.io.ready ≡ None) × (length s.io.out < 4096) };
}

impl Streams {
    ghost use Rattle.cil_streams.specs.HostAnswers.{Answers, CountsReads, CountsWrites};

    /// At the start of a run.
    pub fn new(alloc: Global) -> Result<Streams, AllocError>
        ensures { IfOk result (λ s. s ≡ fresh) }
    {
        Ok(Streams {
            alloc,
            io: Io::new(alloc),
            ahead: Ahead::new(alloc)?,
        })
    }

    /// A call of a function of the host, with the kind of the call's result and the kinds of its arguments.
    ///
    /// The source is asked for bytes only by a `getchar` of the row's kinds, where none is at hand and it has not
    /// given its end; all output is written before. `ReadFault` where that read fails, and `WriteFault` where a
    /// write fails; then the sink took a front of the output. After `Memory` what the sink took and what waits are
    /// the output so far.
    pub fn call<I: Source, O: Sink>(
        &mut self,
        name: HostName,
        wanted: Option<Scalar>,
        args: &[(Scalar, Value)],
        mem: &mut Store,
        input: &mut I,
        out: &mut O,
    ) -> HostEnd
        requires { IsCounted (host_part (memory mem.old) self.old) }
        ensures answers { Answers result mem.old.abi name wanted args.now (memory mem.old) (memory mem.new) self.old self.new
            (I.left input.old) (I.left input.new) (O.taken out.old) (O.taken out.new) }
        ensures counted { IsCounted (host_part (memory mem.new) self.new) }
        ensures model { mem.new.abi ≡ mem.old.abi }
        ensures asked { (input.new ≡ input.old) ⊎ (Asks name wanted args.now self.old × (self.new.waiting ≡ [])) }
        ensures held_back { (out.new ≡ out.old) ⊎ (Asks name wanted args.now self.old ⊎ (4095 ≤ length self.old.waiting)) }
        ensures reads { CountsReads result (I.faults input.old) (I.faults input.new) }
        ensures writes { CountsWrites result (O.faults out.old) (O.faults out.new) }
        ensures read_limit { KeepsLimit (I.faults input.old) (I.faults input.new) }
        ensures write_limit { KeepsLimit (O.faults out.old) (O.faults out.new) }
    {
        match host(self.alloc, name, wanted, args, mem, &mut self.io) {
            HostResult::Value(v) => match write_many(self.alloc, &mut self.io, out) {
                Ok(()) => HostEnd::Value(v),
                Err(Failed) => HostEnd::WriteFault,
            },
            HostResult::Exit(status) => HostEnd::Exit(status),
            HostResult::Undefined => HostEnd::Undefined,
            HostResult::NeedsInput => self.getchar(input, out),
            HostResult::Memory => HostEnd::Memory,
        }
    }

    /// A `getchar` of the row's kinds.
    fn getchar<I: Source, O: Sink>(&mut self, input: &mut I, out: &mut O) -> HostEnd
        ensures fetches { Fetches result self.old self.new
            (I.left input.old) (I.left input.new) (O.taken out.old) (O.taken out.new) }
        ensures asked { (input.new ≡ input.old) ⊎ (IsUsedUp self.old × (self.new.waiting ≡ [])) }
        ensures held_back { (out.new ≡ out.old) ⊎ IsUsedUp self.old }
        ensures reads { CountsReads result (I.faults input.old) (I.faults input.new) }
        ensures writes { CountsWrites result (O.faults out.old) (O.faults out.new) }
        ensures read_limit { KeepsLimit (I.faults input.old) (I.faults input.new) }
        ensures write_limit { KeepsLimit (O.faults out.old) (O.faults out.new) }
    {
        if !self.ahead.is_used_up() {
            return HostEnd::Value(self.ahead.next_character());
        }
        match write_waiting(self.alloc, &mut self.io, out) {
            Err(Failed) => HostEnd::WriteFault,
            Ok(()) => match self.ahead.fill(input) {
                Err(Failed) => HostEnd::ReadFault,
                Ok(()) => HostEnd::Value(self.ahead.next_character()),
            },
        }
    }

    /// Writes all output that waits. Then none waits, and after `Failed` the sink took a front of it.
    pub fn flush<O: Sink>(&mut self, out: &mut O) -> Result<(), Failed>
        ensures began { Began (O.taken out.old) (O.taken out.new) self.old.waiting }
        ensures ok { OnOk result (Wrote (O.taken out.old) (O.taken out.new) self.old.waiting) }
        ensures streams { self.new ≡ record self.old { waiting = [] } }
        ensures count { Counts (O.faults out.old) (O.faults out.new) result }
        ensures limit { KeepsLimit (O.faults out.old) (O.faults out.new) }
        ensures idle { self.old.waiting ≡ [] → out.new ≡ out.old }
    {
        write_waiting(self.alloc, &mut self.io, out)
    }
}
