ghost use Rattle.std.specs.Prelude.{◌≡◌, ◌≤◌, ◌∷◌, ℕ, List, [], Some, All, IfOk, map};
ghost use Rattle.std.specs.String.{string_bytes};
ghost use Rattle.cil_base.specs.declared.kinds.Mode.{Mode};
ghost use Rattle.outside.specs.Counts.{KeepsLimit};
ghost use Rattle.cil_tree.specs.Tree.{Program};
ghost use Rattle.cil_tree.specs.View.{program_of};
ghost use Rattle.cil_tree.specs.Programs.{IsProgram};
ghost use Rattle.cil_semantics.specs.Units.{IsUnit};
ghost use Rattle.cil_semantics.specs.Modes.{HaveModel, LinksApart, HaveOneModel};
ghost use Rattle.cil_turns.specs.Ends.{CountsReads, CountsWrites};
ghost use Rattle.cil_runner.specs.Machine.{Loads, RunsAs};
ghost use Rattle.cil_runner.specs.Beginning.{IsFresh};

use crate::arguments::call_of_main;
use crate::loading::{all_layouts, words_of};
use cil_base::{Bytes, Memory, NamePool};
use cil_frames::Entity;
use cil_link::{Main, Units, entities_of, main_of};
use cil_start::{LoadedUnits, start};
use cil_streams::Streams;
use cil_table::load_table;
use cil_tree::CilUnit;
use cil_turns::{Run, RunEnd, run_call};
use outside::{Sink, Source};
use std::alloc::Global;

/// A machine, which runs linked programs once.
#[derive(Drop)]
pub struct Machine {
    alloc: Global,
    /// What each entity of the run is to calls.
    table: Vec<Option<Entity>>,
    /// Memory, input and output, and the units that are left.
    run: Run,
    /// The function that the run begins with.
    main: Option<Main>,
    /// The number of argument words.
    words: usize,
    /// The units that the run spent.
    used: u64,
}

impl Machine {
    /// A machine that stands before the first step of a well-formed program, which is run alone with these argument
    /// words, the first of which names it (C11 5.1.2.2.1p2). `names` are the texts of the program's names.
    ///
    /// Memory comes for want of memory, and where a number would not fit.
    pub fn load(
        alloc: Global,
        u: &CilUnit,
        names: &NamePool,
        args: &[String],
    ) -> Result<Machine, Memory>
        requires { IsProgram (program_of names.now u.now) }
        ensures loads { (mode : Mode) → HaveModel mode.abi (program_of names.now u.now ∷ []) → IfOk result (λ m. Loads m (program_of names.now u.now ∷ []) mode (map string_bytes args.now)) }
        ensures fresh { IfOk result IsFresh }
    {
        let words = words_of(alloc, args)?;
        Machine::link(alloc, std::slice::from_ref(u), names, &words)
    }

    /// A machine that stands before the first step of the run of programs, which are linked, with these argument words,
    /// the first of which names them (C11 5.1.1.2p1 phase 8, 5.1.2.2.1p2). Each is well-formed but for its names, missing
    /// tags and the order of its aggregates, and each of its globals has a name; all have one data model (own). Nothing is
    /// promised of a mode in which tentative definitions are common (C11 J.5.11) where a name has two definitions.
    /// `names` are the texts of the names of all of them.
    ///
    /// Memory comes for want of memory, and where a number would not fit.
    pub fn link(
        alloc: Global,
        units: &[CilUnit],
        names: &NamePool,
        words: &[Bytes],
    ) -> Result<Machine, Memory>
        requires units { All (λ u. IsUnit (program_of names.now u)) units.now }
        requires model { HaveOneModel (map (program_of names.now) units.now) }
        ensures loads { (mode : Mode) → HaveModel mode.abi (map (program_of names.now) units.now) → LinksApart mode (map (program_of names.now) units.now) → IfOk result (λ m. Loads m (map (program_of names.now) units.now) mode words.now) }
        ensures fresh { IfOk result IsFresh }
    {
        let layouts = all_layouts(alloc, units)?;
        let entities = entities_of(alloc, units, names)?;
        let linked = Units {
            units,
            names,
            entities: &entities,
        };
        let l = LoadedUnits {
            linked,
            layouts: &layouts,
        };
        let table = load_table(alloc, &l)?;
        let mem = start(alloc, &l, words)?;
        let streams = Streams::new(alloc)?;
        Ok(Machine {
            alloc,
            table,
            run: Run::new(alloc, mem, streams, 0),
            main: main_of(&linked),
            words: words.len(),
            used: 0,
        })
    }

    /// Runs the programs, which may spend at most `steps` units: each entry of a function of theirs spends one, and
    /// so does each turn of a loop and each jump back (own). It reads `input` where they ask for a byte and none
    /// is at hand, and `out` gets all output, unless a write fails.
    ///
    /// In each mode of their data model in which they have no definitions in common the run is the same (own).
    ///
    /// Undefined also where they have no main (own). After a fault and after Memory the sink got a front of the
    /// output, whatever the source has still to give. No more bytes are asked for at once than 4,096.
    pub fn run<S: Source, O: Sink>(&mut self, steps: u64, input: &mut S, out: &mut O) -> RunEnd
        requires { IsFresh self.old }
        ensures runs { (programs : List Program) (mode : Mode) (words : List (List ℕ)) → Loads self.old programs mode words
            → RunsAs result programs mode words steps self.new.used (S.left input.old) (S.left input.new) (O.taken out.old) (O.taken out.new) }
        ensures within { self.new.used ≤ steps }
        ensures reads { CountsReads result (S.faults input.old) (S.faults input.new) }
        ensures writes { CountsWrites result (O.faults out.old) (O.faults out.new) }
        ensures read_limit { KeepsLimit (S.faults input.old) (S.faults input.new) }
        ensures write_limit { KeepsLimit (O.faults out.old) (O.faults out.new) }
    {
        match self.main {
            None => RunEnd::Undefined,
            Some(main) => self.run_main(main, steps, input, out),
        }
    }

    /// Runs the programs from their main on.
    fn run_main<S: Source, O: Sink>(
        &mut self,
        main: Main,
        steps: u64,
        input: &mut S,
        out: &mut O,
    ) -> RunEnd
        requires fresh { IsFresh self.old }
        requires main { self.old.main ≡ Some main }
        ensures runs { (programs : List Program) (mode : Mode) (words : List (List ℕ)) → Loads self.old programs mode words
            → RunsAs result programs mode words steps self.new.used (S.left input.old) (S.left input.new) (O.taken out.old) (O.taken out.new) }
        ensures within { self.new.used ≤ steps }
        ensures reads { CountsReads result (S.faults input.old) (S.faults input.new) }
        ensures writes { CountsWrites result (O.faults out.old) (O.faults out.new) }
        ensures read_limit { KeepsLimit (S.faults input.old) (S.faults input.new) }
        ensures write_limit { KeepsLimit (O.faults out.old) (O.faults out.new) }
    {
        let Ok(first) = call_of_main(self.alloc, main, self.words) else {
            return RunEnd::Memory;
        };
        self.run.left = steps;
        let end = run_call(&self.table, &mut self.run, &first, input, out);
        self.used = steps - self.run.left;
        end
    }

    /// The units that the run spent; none before it. After a fault or want of memory they are those of the run up to there,
    /// no more than the whole run spends.
    pub fn used(&self) -> u64
        ensures { result ≡ self.now.used }
    {
        self.used
    }
}
