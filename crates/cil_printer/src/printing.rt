ghost use Rattle.std.specs.Prelude.{◌≡◌, ◌≤◌, length as length_of, IfOk, MatchResult};
ghost use Rattle.layout_lp64.specs.Tables.{InStep};
ghost use Rattle.cil_tree.specs.View.{program_of};
ghost use Rattle.cil_tree.specs.WellFormedTypes.{TypesAreSmall};
ghost use Rattle.cil_tree.specs.Text.{Text};
ghost use Rattle.cil_tree.specs.Programs.{IsProgram, IsTextOf};
ghost use Rattle.cil_printer.specs.Output.{capped};
ghost use Rattle.cil_printer.specs.Seen.{tree_of};
ghost use Rattle.cil_printer.specs.Stops.{StopsAt};
ghost use Rattle.cil_base.specs.Limits.{text_bytes};

use crate::lengths::all_sides;
use crate::program::Program;
use crate::sink::Sink;
use cil_base::{Bytes, Memory, NamePool, TEXT_BYTES};
use cil_tree::CilUnit;
use layout_lp64::{LayoutStop, Layouts};
use std::alloc::{AllocError, Global};
use thiserror::Error;
use type_graph::TypeGraph;

/// Why a program is not printed.
#[derive(Clone, Copy, Debug, PartialEq, Eq, Error)]
pub enum PrintStop {
    /// Its text has more bytes than a CIL text may have (own).
    #[error("the text is longer than a CIL text may be")]
    TooLong,
    /// Want of memory.
    #[error("want of memory")]
    Memory,
}

impl From<Memory> for PrintStop {
    ghost use Rattle.std.specs.Prelude.{◌≡◌};
    ghost use Rattle.cil_printer.specs.declared.printing.PrintStop.TheVariants as stop;

    ghost from_gives = { λ _ e. e ≡ stop.Memory };

    fn from(_want: Memory) -> Self {
        PrintStop::Memory
    }
}

impl From<AllocError> for PrintStop {
    ghost use Rattle.std.specs.Prelude.{◌≡◌};
    ghost use Rattle.cil_printer.specs.declared.printing.PrintStop.TheVariants as stop;

    ghost from_gives = { λ _ e. e ≡ stop.Memory };

    fn from(_failed: AllocError) -> Self {
        PrintStop::Memory
    }
}

/// The layouts of types none of which is too big.
#[tactic(auto, using(crate::proofs::Counted::none_too_big))]
fn layouts_of(alloc: Global, g: &TypeGraph) -> Result<Layouts, Memory>
    requires { TypesAreSmall g.now }
    ensures { IfOk result (λ l. InStep l g.now) }
{
    match Layouts::of_graph(alloc, g) {
        Ok(layouts) => Ok(layouts),
        Err(LayoutStop::Memory) => Err(Memory),
        Err(LayoutStop::TooBig(_)) => unreachable!(),
    }
}

impl<'a> Program<'a> {
    /// The number of bytes of the text, or the greatest number.
    fn text_length(&self) -> u64
        requires { IsProgram (tree_of self.now) }
        ensures { result ≡ capped (length_of (Text (tree_of self.now))) }
    {
        let mut out = Sink::counting();
        self.push_program(&mut out);
        out.length()
    }

    /// The text, which has so many bytes.
    fn text(&self, length: u64) -> Result<Bytes, Memory>
        requires program { IsProgram (tree_of self.now) }
        requires counted { length ≡ capped (length_of (Text (tree_of self.now))) }
        requires short { length ≤ text_bytes }
        ensures { IfOk result (λ b. b ≡ Text (tree_of self.now)) }
    {
        let mut out = Sink::keeping(self.graph().alloc(), length as usize)?;
        self.push_program(&mut out);
        Ok(Bytes::new(out.into_bytes()))
    }

    /// The text, if it is not too long.
    #[tactic(auto, using(crate::proofs::Counted::is_text, crate::proofs::Counted::is_long))]
    fn short_text(&self) -> Result<Bytes, PrintStop>
        requires { IsProgram (tree_of self.now) }
        ensures { MatchResult result (λ b. IsTextOf b (tree_of self.now)) (λ e. StopsAt (tree_of self.now) e) }
    {
        let length = self.text_length();
        if length > TEXT_BYTES as u64 {
            return Err(PrintStop::TooLong);
        }
        let text = self.text(length)?;
        Ok(text)
    }
}

/// Prints a well-formed program: the bytes of its text (own).
///
/// TooLong comes exactly where the text has more than 268,435,456 bytes, and before a byte of it is printed. Memory
/// comes only for want of memory. The cost follows the tree and the text.
pub fn print(u: &CilUnit, names: &NamePool) -> Result<Bytes, PrintStop>
    requires { IsProgram (program_of names.now u.now) }
    ensures { MatchResult result (λ b. IsTextOf b (program_of names.now u.now)) (λ e. StopsAt (program_of names.now u.now) e) }
{
    let layouts = layouts_of(u.graph.alloc(), &u.graph)?;
    let sides = all_sides(u, names, &layouts)?;
    let program = Program {
        unit: u,
        names,
        layouts: &layouts,
        sides: &sides,
    };
    program.short_text()
}
