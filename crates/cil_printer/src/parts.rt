ghost use Rattle.std.specs.Prelude.{◌≡◌};
ghost use Rattle.cil_tree.specs.View.{global_of, definition_of};
ghost use Rattle.cil_tree.specs.Text.{concat_each, function_lines, program_lines};
ghost use Rattle.cil_tree.specs.Programs.{IsProgram};
ghost use Rattle.cil_printer.specs.Plain.{IsPlainProgram, IsPlainGlobal, prints};
ghost use Rattle.cil_printer.specs.Parts.{global_lines};
ghost use Rattle.cil_printer.specs.Seen.{tree_of};

use crate::aggregates::AggregatePart;
use crate::program::Program;
use crate::sink::Sink;
use cil_tree::{GlobalDecl, GlobalDef};

/// The parts of a text that go through the globals, in their order.
#[derive(Clone, Copy)]
pub(crate) enum GlobalPart {
    /// The declaration of each (C11 6.7).
    Declarations,
    /// Objects that are defined (C11 6.9.2).
    Objects,
    /// Functions with bodies (C11 6.9.1).
    Functions,
}

impl<'a> Program<'a> {
    /// Appends a global with its body, if it has one.
    #[tactic(auto, using(crate::proofs::Printed::nothing_printed))]
    fn push_function(&self, out: &mut Sink, x: &GlobalDecl)
        requires { IsPlainGlobal (tree_of self.now) (global_of (tree_of self.now).graph.nodes (tree_of self.now).names x.now) }
        ensures { out.new ≡ prints out.old 0 (function_lines (tree_of self.now) (global_of (tree_of self.now).graph.nodes (tree_of self.now).names x.now) (definition_of (tree_of self.now).graph.nodes (tree_of self.now).names x.now.def)) }
    {
        match &x.def {
            GlobalDef::Declared | GlobalDef::Zero | GlobalDef::Image(_) => {}
            GlobalDef::Body(body) => self.push_definition(out, x, body),
        }
    }

    /// Appends the lines that a global has in a part of the text.
    fn push_global_lines(&self, out: &mut Sink, part: GlobalPart, x: &GlobalDecl)
        requires plain { IsPlainProgram (tree_of self.now) }
        requires global { IsPlainGlobal (tree_of self.now) (global_of (tree_of self.now).graph.nodes (tree_of self.now).names x.now) }
        ensures { out.new ≡ prints out.old 0 (global_lines part (tree_of self.now) (global_of (tree_of self.now).graph.nodes (tree_of self.now).names x.now)) }
    {
        match part {
            GlobalPart::Declarations => self.push_declaration(out, x),
            GlobalPart::Objects => self.push_object(out, x),
            GlobalPart::Functions => self.push_function(out, x),
        }
    }

    /// Appends a part of the text that goes through the globals.
    #[tactic(auto, using(crate::proofs::WellFormed::plain_program))]
    fn push_globals(&self, out: &mut Sink, part: GlobalPart)
        requires { IsProgram (tree_of self.now) }
        ensures { out.new ≡ prints out.old 0 (concat_each (global_lines part (tree_of self.now)) (tree_of self.now).globals) }
    {
        let globals = self.unit.globals.as_slice();
        for i in 0..globals.len() {
            self.push_global_lines(out, part, &globals[i]);
        }
    }

    /// Appends the whole text.
    pub(crate) fn push_program(&self, out: &mut Sink)
        requires { IsProgram (tree_of self.now) }
        ensures { out.new ≡ prints out.old 0 (program_lines (tree_of self.now)) }
    {
        self.push_aggregates(out, AggregatePart::Enums);
        self.push_aggregates(out, AggregatePart::Tags);
        self.push_aggregates(out, AggregatePart::Structs);
        self.push_globals(out, GlobalPart::Declarations);
        self.push_globals(out, GlobalPart::Objects);
        self.push_globals(out, GlobalPart::Functions);
    }
}
