ghost use Rattle.std.specs.Prelude.{◌≡◌, ◌+◌, suc, [], ◌∷◌, ◌++◌, Option, Some, None, is_some, true, codes};
ghost use Rattle.std.specs.Option.{option_map};
ghost use Rattle.cil_tree.specs.Tree.{Do, If, Switch, Loop, Block, Label, Case, Default, Goto, Break, Return};
ghost use Rattle.cil_tree.specs.View.{exp_of, instr_of, stmt_of, stmts_of};
ghost use Rattle.cil_tree.specs.Typing.{type_of};
ghost use Rattle.cil_tree.specs.Bodies.{each_stmt, each_within};
ghost use Rattle.cil_tree.specs.Declarators.{in_parentheses};
ghost use Rattle.cil_tree.specs.Text.{heading, closing, exp_tokens, stmt_lines, lines_of};
ghost use Rattle.cil_printer.specs.Output.{puts, capped};
ghost use Rattle.cil_printer.specs.Seen.{scope_in, nodes_in, returned_tokens};
ghost use Rattle.cil_printer.specs.Typed.{instr_is_typed, value_is_typed, stmt_is_typed};
ghost use Rattle.cil_printer.specs.Plain.{IsPlain, prints};

use crate::function::Function;
use crate::numbers::push_number;
use crate::sink::Sink;
use cil_base::{IntKind, LabelId};
use cil_tree::{Exp, Instr, Stmt};

/// Appends the line that ends a brace which was opened at the depth.
#[tactic(auto, using(crate::proofs::StatementLines::brace_closed))]
pub(crate) fn push_close(out: &mut Sink, depth: u64)
    ensures { out.new ≡ prints out.old (suc depth) (closing ∷ []) }
{
    out.indent(depth);
    out.end(b"}");
}

/// Appends the line between the two parts of an `if` (C11 6.8.4.1).
#[tactic(auto, using(crate::proofs::StatementLines::else_opened))]
fn push_else(out: &mut Sink, depth: u64)
    ensures { out.new ≡ prints out.old (suc depth) ((codes "}" ∷ codes "else" ∷ codes "{" ∷ []) ∷ []) }
{
    out.indent(depth);
    out.token(b"}");
    out.token(b"else");
    out.end(b"{");
}

/// Appends the line that begins a loop (C11 6.8.5.1).
#[tactic(auto, using(crate::proofs::StatementLines::loop_opened))]
fn push_while(out: &mut Sink, depth: u64)
    ensures { out.new ≡ prints out.old depth (heading (codes "while") (codes "1" ∷ []) ∷ []) }
{
    out.indent(depth);
    out.token(b"while");
    out.token(b"(");
    out.token(b"1");
    out.token(b")");
    out.end(b"{");
}

/// Appends the line that begins a block (C11 6.8.2).
#[tactic(auto, using(crate::proofs::StatementLines::block_opened))]
fn push_open(out: &mut Sink, depth: u64)
    ensures { out.new ≡ prints out.old depth ((codes "{" ∷ []) ∷ []) }
{
    out.indent(depth);
    out.end(b"{");
}

/// Appends a statement of one word.
#[tactic(auto, using(crate::proofs::StatementLines::word_printed))]
fn push_break(out: &mut Sink, depth: u64)
    ensures { out.new ≡ prints out.old depth ((codes "break" ∷ codes ";" ∷ []) ∷ []) }
{
    out.indent(depth);
    out.token(b"break");
    out.end(b";");
}

/// Appends a default label (C11 6.8.1).
#[tactic(auto, using(crate::proofs::StatementLines::default_printed))]
fn push_default(out: &mut Sink, depth: u64)
    ensures { out.new ≡ prints out.old depth ((codes "default" ∷ codes ":" ∷ codes ";" ∷ []) ∷ []) }
{
    out.indent(depth);
    out.token(b"default");
    out.token(b":");
    out.end(b";");
}

impl<'a> Function<'a> {
    /// Appends the line of an instruction.
    #[tactic(auto, using(crate::proofs::StatementLines::instr_printed))]
    fn push_instruction_line(&self, out: &mut Sink, depth: u64, instr: &Instr)
        requires plain { IsPlain (scope_in self.now) }
        requires typed { instr_is_typed (scope_in self.now) (instr_of (nodes_in self.now) instr.now) ≡ true }
        ensures { out.new ≡ prints out.old depth (stmt_lines (scope_in self.now) (Do (instr_of (nodes_in self.now) instr.now))) }
    {
        out.indent(depth);
        self.push_instruction(out, instr);
        out.end(b";");
    }

    /// Appends the line of a label (C11 6.8.1).
    #[tactic(auto, using(crate::proofs::StatementLines::label_printed))]
    fn push_label(&self, out: &mut Sink, depth: u64, l: LabelId)
        requires plain { IsPlain (scope_in self.now) }
        ensures { out.new ≡ prints out.old depth (stmt_lines (scope_in self.now) (Label l.0)) }
    {
        out.indent(depth);
        out.token(self.label_name(l));
        out.token(b":");
        out.end(b";");
    }

    /// Appends the line of a case label (C11 6.8.1).
    #[tactic(auto, using(crate::proofs::StatementLines::case_printed))]
    fn push_case(&self, out: &mut Sink, depth: u64, kind: IntKind, v: i128)
        ensures { out.new ≡ prints out.old depth (stmt_lines (scope_in self.now) (Case kind v)) }
    {
        out.indent(depth);
        out.token(b"case");
        push_number(out, kind, v);
        out.token(b":");
        out.end(b";");
    }

    /// Appends the line of a jump to a label (C11 6.8.6.1).
    #[tactic(auto, using(crate::proofs::StatementLines::goto_printed))]
    fn push_goto(&self, out: &mut Sink, depth: u64, l: LabelId)
        requires plain { IsPlain (scope_in self.now) }
        ensures { out.new ≡ prints out.old depth (stmt_lines (scope_in self.now) (Goto l.0)) }
    {
        out.indent(depth);
        out.token(b"goto");
        out.token(self.label_name(l));
        out.end(b";");
    }

    /// Appends the value that a function returns, where it returns one.
    fn push_returned(&self, out: &mut Sink, value: &Option<Exp>)
        requires { value_is_typed (scope_in self.now) (option_map (exp_of (nodes_in self.now)) value.now) ≡ true }
        ensures { out.new ≡ puts out.old (returned_tokens (scope_in self.now) (option_map (exp_of (nodes_in self.now)) value.now)) }
    {
        match value {
            None => {}
            Some(e) => {
                self.push_expression(out, e);
            }
        }
    }

    /// Appends the line of a return (C11 6.8.6.4).
    #[tactic(auto, using(crate::proofs::StatementLines::return_printed))]
    fn push_return(&self, out: &mut Sink, depth: u64, value: &Option<Exp>)
        requires plain { IsPlain (scope_in self.now) }
        requires typed { value_is_typed (scope_in self.now) (option_map (exp_of (nodes_in self.now)) value.now) ≡ true }
        ensures { out.new ≡ prints out.old depth (stmt_lines (scope_in self.now) (Return (option_map (exp_of (nodes_in self.now)) value.now))) }
    {
        out.indent(depth);
        out.token(b"return");
        self.push_returned(out, value);
        out.end(b";");
    }

    /// Appends the line that begins an `if`.
    #[tactic(auto, using(crate::proofs::StatementLines::heading_printed))]
    fn push_if(&self, out: &mut Sink, depth: u64, test: &Exp)
        requires plain { IsPlain (scope_in self.now) }
        requires typed { is_some (type_of (scope_in self.now) (exp_of (nodes_in self.now) test.now)) ≡ true }
        ensures { out.new ≡ prints out.old depth (heading (codes "if") (exp_tokens (scope_in self.now) (exp_of (nodes_in self.now) test.now)) ∷ []) }
    {
        out.indent(depth);
        out.token(b"if");
        self.push_tested(out, test);
        out.end(b"{");
    }

    /// Appends the line that begins a `switch`.
    #[tactic(auto, using(crate::proofs::StatementLines::heading_printed))]
    fn push_switch(&self, out: &mut Sink, depth: u64, value: &Exp)
        requires plain { IsPlain (scope_in self.now) }
        requires typed { is_some (type_of (scope_in self.now) (exp_of (nodes_in self.now) value.now)) ≡ true }
        ensures { out.new ≡ prints out.old depth (heading (codes "switch") (exp_tokens (scope_in self.now) (exp_of (nodes_in self.now) value.now)) ∷ []) }
    {
        out.indent(depth);
        out.token(b"switch");
        self.push_tested(out, value);
        out.end(b"{");
    }

    /// Appends an expression in parentheses.
    #[tactic(auto, using(crate::proofs::Puts::enclosed))]
    fn push_tested(&self, out: &mut Sink, e: &Exp)
        requires { is_some (type_of (scope_in self.now) (exp_of (nodes_in self.now) e.now)) ≡ true }
        ensures { out.new ≡ puts out.old (in_parentheses (exp_tokens (scope_in self.now) (exp_of (nodes_in self.now) e.now))) }
    {
        out.token(b"(");
        self.push_expression(out, e);
        out.token(b")");
    }

    /// Appends a statement's lines, in so many braces.
    #[cycle(statement)]
    pub(crate) fn push_statement(&self, out: &mut Sink, depth: u64, s: &Stmt)
        requires plain { IsPlain (scope_in self.now) }
        requires typed { stmt_is_typed (scope_in self.now) (stmt_of (nodes_in self.now) s.now) ≡ true }
        requires within { each_within (stmt_is_typed (scope_in self.now)) (stmt_of (nodes_in self.now) s.now) ≡ true }
        ensures { out.new ≡ prints out.old depth (stmt_lines (scope_in self.now) (stmt_of (nodes_in self.now) s.now)) }
    {
        match s {
            Stmt::Instr(instr) => self.push_instruction_line(out, depth, instr),
            Stmt::If(test, holds, fails) => {
                self.push_if(out, depth, test);
                self.push_holding(out, depth, holds);
                self.push_body(out, depth, fails);
            }
            Stmt::Switch(value, body) => {
                self.push_switch(out, depth, value);
                self.push_body(out, depth, body);
            }
            Stmt::Loop(body) => {
                push_while(out, depth);
                self.push_body(out, depth, body);
            }
            Stmt::Block(body) => {
                push_open(out, depth);
                self.push_body(out, depth, body);
            }
            Stmt::Label(l) => self.push_label(out, depth, *l),
            Stmt::Case(kind, v) => self.push_case(out, depth, *kind, *v),
            Stmt::Default => push_default(out, depth),
            Stmt::Goto(l) => self.push_goto(out, depth, *l),
            Stmt::Break => push_break(out, depth),
            Stmt::Return(value) => self.push_return(out, depth, value),
        }
    }

    /// Appends the statements within a brace that was opened at the depth, and the line that begins the other part.
    #[cycle(statement)]
    #[tactic(auto, using(crate::proofs::StatementLines::holding_printed))]
    fn push_holding(&self, out: &mut Sink, depth: u64, body: &[Stmt])
        requires plain { IsPlain (scope_in self.now) }
        requires typed { each_stmt (stmt_is_typed (scope_in self.now)) (stmts_of (nodes_in self.now) body.now) ≡ true }
        ensures { out.new ≡ prints out.old (suc depth) (lines_of (scope_in self.now) (stmts_of (nodes_in self.now) body.now) ++ (codes "}" ∷ codes "else" ∷ codes "{" ∷ []) ∷ []) }
    {
        self.push_statements(out, inner(depth), body);
        push_else(out, depth);
    }

    /// Appends the statements within a brace that was opened at the depth, and its end.
    #[cycle(statement)]
    #[tactic(auto, using(crate::proofs::StatementLines::whole_printed))]
    pub(crate) fn push_body(&self, out: &mut Sink, depth: u64, body: &[Stmt])
        requires plain { IsPlain (scope_in self.now) }
        requires typed { each_stmt (stmt_is_typed (scope_in self.now)) (stmts_of (nodes_in self.now) body.now) ≡ true }
        ensures { out.new ≡ prints out.old (suc depth) (lines_of (scope_in self.now) (stmts_of (nodes_in self.now) body.now) ++ closing ∷ []) }
    {
        self.push_statements(out, inner(depth), body);
        push_close(out, depth);
    }

    /// Appends statements' lines, in so many braces.
    #[cycle(statement)]
    pub(crate) fn push_statements(&self, out: &mut Sink, depth: u64, body: &[Stmt])
        requires plain { IsPlain (scope_in self.now) }
        requires typed { each_stmt (stmt_is_typed (scope_in self.now)) (stmts_of (nodes_in self.now) body.now) ≡ true }
        ensures { out.new ≡ prints out.old depth (lines_of (scope_in self.now) (stmts_of (nodes_in self.now) body.now)) }
    {
        for i in 0..body.len() {
            self.push_statement(out, depth, &body[i]);
        }
    }
}

/// One brace more, or the greatest number. A text with so many open braces is too long.
fn inner(depth: u64) -> u64
    ensures { result ≡ capped (suc depth) }
{
    depth.saturating_add(1)
}
