ghost use Rattle.std.specs.Prelude.{◌≡◌, Some, IfOk, List};
ghost use Rattle.std.specs.Option.{option_map, option_and_then};
ghost use Rattle.type_graph.specs.declared.nodes.Node.{Node};
ghost use Rattle.type_graph.specs.Arena.{Graph};
ghost use Rattle.cil_tree.specs.Tree.{Do, Label, Case, Goto};
ghost use Rattle.cil_tree.specs.View.{exp_of, stmt_of};
ghost use Rattle.cil_text.specs.ReadExps.{enclosed, read_exp};
ghost use Rattle.cil_text.specs.ReadStmts.{Whole, Tested, Turned, read_tested, read_return, read_simple, read_head, read_heads, read_instr, read_number, case_of, label_text};
ghost use Rattle.cil_text.specs.TypesOf.{AddsParts, types_in_exp};
ghost use Rattle.cil_reader.specs.Added.{types_in_head, types_in_heads};
ghost use Rattle.cil_scan.specs.Said.{all_said, all_lines};
ghost use Rattle.cil_declarators.specs.Gives.{Gives};
ghost use Rattle.cil_reader.specs.Settings.{Onward, env_in};
ghost use Rattle.cil_reader.specs.Parts.{ExpKnown};
ghost use Rattle.cil_reader.specs.Heads.{head_of, heads_of, StmtKnown, HeadKnown, HeadsKnown, opens, opening, labelled, brace_of, block_line, jump_line};

use crate::instructions::read_instr;
use crate::operands::read_exp;
use crate::parts::Operand;
use crate::reader::Reader;
use cil_base::LabelId;
use cil_declarators::{Numbering, Stop};
use cil_forms::{
    ends_case, ends_opening, is_block, is_end, is_end_of_line, is_jump, is_label, label_text,
};
use cil_nodes::{boxed_statement, case, goto, label, return_value};
use cil_numbers::{Numbered, read_number};
use cil_scan::Word;
use cil_tree::{Exp, Stmt};

/// A line of a function's body (C11 6.8): a statement that is whole, or what opens or closes a block.
#[derive(Drop)]
pub(crate) enum Head {
    Whole(Box<Stmt>),
    /// `if ( .. ) {`
    Tested(Box<Exp>),
    /// `switch ( .. ) {`
    Turned(Box<Exp>),
    /// `while ( 1 ) {`
    Looped,
    /// `{`
    Opened,
    /// `} else {`
    Otherwise,
    /// `}`
    Closed,
}

/// Behind the `(` of an `if` or `switch`: its expression, and the end of its line.
#[tactic(auto, using(crate::proofs::HeadsLaws::opened_gives, crate::proofs::HeadsLaws::opened_open, crate::proofs::HeadsLaws::opened_fails))]
fn opened(r: &mut Reader, left: u32, words: &[Word]) -> Result<Operand, Stop>
    ensures gives { Gives (λ x. exp_of r.new.graph.nodes x.exp.value) result (option_and_then opens (enclosed (λ e. e) (read_exp (env_in r.old) left (all_said words.now)))) }
    ensures known { IfOk result (λ x. ExpKnown r.new.graph (env_in r.new) x.exp.value x.to) }
    ensures on { Onward r.old r.new }
    ensures adds { IfOk result (λ x. AddsParts r.old.graph r.new.graph (types_in_exp (exp_of r.new.graph.nodes x.exp.value))) }
{
    let (value, rest) = read_exp(r, left, words)?;
    if !ends_opening(rest) {
        return Err(Stop::NotCil);
    }
    Ok(value)
}

/// The expression of an `if` or `switch` (C11 6.8.4), and the end of its line.
#[tactic(auto, using(crate::proofs::OnwardLaws::onward_none))]
fn opening(r: &mut Reader, left: u32, words: &[Word]) -> Result<Operand, Stop>
    ensures gives { Gives (λ x. exp_of r.new.graph.nodes x.exp.value) result (opening (env_in r.old) left (all_said words.now)) }
    ensures known { IfOk result (λ x. ExpKnown r.new.graph (env_in r.new) x.exp.value x.to) }
    ensures on { Onward r.old r.new }
    ensures adds { IfOk result (λ x. AddsParts r.old.graph r.new.graph (types_in_exp (exp_of r.new.graph.nodes x.exp.value))) }
{
    match words {
        [Word::LeftParen, rest @ ..] => opened(r, left, rest),
        _ => Err(Stop::NotCil),
    }
}

/// Behind `if`.
#[tactic(auto, using(crate::proofs::HeadsLaws::tested_gives, crate::proofs::HeadsLaws::tested_fails, crate::proofs::HeadsLaws::known_tested))]
fn read_if(r: &mut Reader, left: u32, words: &[Word]) -> Result<Head, Stop>
    ensures gives { Gives (λ h. head_of r.new.graph.nodes h) result (read_tested (env_in r.old) left Tested (all_said words.now)) }
    ensures known { IfOk result (HeadKnown r.new.graph) }
    ensures on { Onward r.old r.new }
    ensures adds { IfOk result (λ h. AddsParts r.old.graph r.new.graph (types_in_head (head_of r.new.graph.nodes h))) }
{
    let test = opening(r, left, words)?;
    Ok(Head::Tested(test.exp))
}

/// Behind `switch`.
#[tactic(auto, using(crate::proofs::HeadsLaws::tested_gives, crate::proofs::HeadsLaws::tested_fails, crate::proofs::HeadsLaws::known_turned))]
fn read_switch(r: &mut Reader, left: u32, words: &[Word]) -> Result<Head, Stop>
    ensures gives { Gives (λ h. head_of r.new.graph.nodes h) result (read_tested (env_in r.old) left Turned (all_said words.now)) }
    ensures known { IfOk result (HeadKnown r.new.graph) }
    ensures on { Onward r.old r.new }
    ensures adds { IfOk result (λ h. AddsParts r.old.graph r.new.graph (types_in_head (head_of r.new.graph.nodes h))) }
{
    let value = opening(r, left, words)?;
    Ok(Head::Turned(value.exp))
}

/// Behind `return` (C11 6.8.6.4).
#[tactic(auto, using(crate::proofs::HeadsLaws::return_nothing, crate::proofs::HeadsLaws::return_gives, crate::proofs::HeadsLaws::return_open, crate::proofs::HeadsLaws::return_fails, crate::proofs::HeadsLaws::known_nothing, crate::proofs::HeadsLaws::known_return, crate::proofs::OnwardLaws::onward_none, cil_text::proofs::PartsAdded::adds_none))]
fn read_return(r: &mut Reader, left: u32, words: &[Word]) -> Result<Head, Stop>
    ensures gives { Gives (λ h. head_of r.new.graph.nodes h) result (read_return (env_in r.old) left (all_said words.now)) }
    ensures known { IfOk result (HeadKnown r.new.graph) }
    ensures on { Onward r.old r.new }
    ensures adds { IfOk result (λ h. AddsParts r.old.graph r.new.graph (types_in_head (head_of r.new.graph.nodes h))) }
{
    if is_end_of_line(words) {
        return whole(r, Stmt::Return(None));
    }
    let (value, rest) = read_exp(r, left, words)?;
    if !is_end(rest) {
        return Err(Stop::NotCil);
    }
    whole(r, return_value(value.exp))
}

/// Behind `case`: its value, if its line ends behind it.
#[tactic(auto, using(crate::proofs::HeadsLaws::case_gives, crate::proofs::HeadsLaws::case_open, crate::proofs::HeadsLaws::case_fails))]
fn read_case(r: &Reader, words: &[Word]) -> Option<Numbered>
    ensures { option_map (λ x. Whole (Case x.kind x.value)) result ≡ option_and_then (case_of (env_in r.now).abi) (read_number (all_said words.now)) }
{
    let (number, rest) = read_number(words)?;
    if !ends_case(rest) {
        return None;
    }
    let kind = r.kind(number.kind);
    let value = number.value;
    Some(Numbered { kind, value })
}

/// A line that is a statement of its own.
#[tactic(auto, using(crate::proofs::HeadsLaws::known_whole))]
fn whole(r: &Reader, statement: Stmt) -> Result<Head, Stop>
    requires { StmtKnown r.now.graph statement }
    ensures gives { Gives (λ h. head_of r.now.graph.nodes h) result (Some (Whole (stmt_of r.now.graph.nodes statement))) }
    ensures known { IfOk result (HeadKnown r.now.graph) }
{
    Ok(Head::Whole(boxed_statement(r.alloc(), statement)?))
}

/// A line that is an instruction.
#[tactic(auto, using(crate::proofs::HeadsLaws::known_instr))]
fn whole_instr(r: &mut Reader, left: u32, words: &[Word]) -> Result<Head, Stop>
    ensures gives { Gives (λ h. head_of r.new.graph.nodes h) result (option_map (λ i. Whole (Do i)) (read_instr (env_in r.old) left (all_said words.now))) }
    ensures known { IfOk result (HeadKnown r.new.graph) }
    ensures on { Onward r.old r.new }
    ensures adds { IfOk result (λ h. AddsParts r.old.graph r.new.graph (types_in_head (head_of r.new.graph.nodes h))) }
{
    let instr = read_instr(r, left, words)?;
    whole(r, Stmt::Instr(instr))
}

/// Behind `case` (C11 6.8.1): the line of a label.
#[tactic(auto, using(crate::proofs::HeadsLaws::known_case, cil_text::proofs::PartsAdded::adds_none))]
fn case_line(r: &Reader, words: &[Word]) -> Result<Head, Stop>
    ensures gives { Gives (λ h. head_of r.now.graph.nodes h) result (option_and_then (case_of (env_in r.now).abi) (read_number (all_said words.now))) }
    ensures known { IfOk result (HeadKnown r.now.graph) }
    ensures adds { IfOk result (λ h. AddsParts r.now.graph r.now.graph (types_in_head (head_of r.now.graph.nodes h))) }
{
    match read_case(r, words) {
        Some(number) => whole(r, case(number.kind, number.value)),
        None => Err(Stop::NotCil),
    }
}

/// Behind `goto` (C11 6.8.6.1): a jump to one of these labels.
#[tactic(auto, using(crate::proofs::HeadsLaws::known_goto, cil_text::proofs::PartsAdded::adds_none))]
fn goto_line(r: &Reader, labels: &Numbering, words: &[Word]) -> Result<Head, Stop>
    ensures gives { Gives (λ h. head_of r.now.graph.nodes h) result (labelled labels.now Goto (label_text (all_said words.now))) }
    ensures known { IfOk result (HeadKnown r.now.graph) }
    ensures adds { IfOk result (λ h. AddsParts r.now.graph r.now.graph (types_in_head (head_of r.now.graph.nodes h))) }
{
    match labels.find(label_text(words)) {
        Some(number) => whole(r, goto(LabelId(number))),
        None => Err(Stop::NotCil),
    }
}

/// The line of one of these labels, whose name stands in front (C11 6.8.1).
#[tactic(auto, using(crate::proofs::HeadsLaws::known_label, cil_text::proofs::PartsAdded::adds_none))]
fn label_line(r: &Reader, labels: &Numbering, words: &[Word]) -> Result<Head, Stop>
    ensures gives { Gives (λ h. head_of r.now.graph.nodes h) result (labelled labels.now Label (label_text (all_said words.now))) }
    ensures known { IfOk result (HeadKnown r.now.graph) }
    ensures adds { IfOk result (λ h. AddsParts r.now.graph r.now.graph (types_in_head (head_of r.now.graph.nodes h))) }
{
    match labels.find(label_text(words)) {
        Some(number) => whole(r, label(LabelId(number))),
        None => Err(Stop::NotCil),
    }
}

/// A line that is a label or an instruction.
#[tactic(auto, using(crate::proofs::HeadsLaws::simple_label, crate::proofs::HeadsLaws::simple_instr, crate::proofs::OnwardLaws::onward_none))]
fn read_simple(r: &mut Reader, labels: &Numbering, left: u32, words: &[Word]) -> Result<Head, Stop>
    ensures gives { Gives (λ h. head_of r.new.graph.nodes h) result (read_simple (env_in r.old) labels.now left (all_said words.now)) }
    ensures known { IfOk result (HeadKnown r.new.graph) }
    ensures on { Onward r.old r.new }
    ensures adds { IfOk result (λ h. AddsParts r.old.graph r.new.graph (types_in_head (head_of r.new.graph.nodes h))) }
{
    if is_label(words) {
        return label_line(r, labels, words);
    }
    whole_instr(r, left, words)
}

/// What a line is that begins with `}`, by what stands behind it.
#[tactic(auto, using(crate::proofs::HeadsLaws::known_otherwise, crate::proofs::HeadsLaws::known_closed))]
fn behind_brace(words: &[Word]) -> Head
    ensures is { (nodes : List Node) → head_of nodes result ≡ brace_of (all_said words.now) }
    ensures known { (g : Graph) → HeadKnown g result }
{
    match words {
        [Word::ElseWord, ..] => Head::Otherwise,
        _ => Head::Closed,
    }
}

/// A line that opens a part of a statement, or closes one.
fn block_line(r: &mut Reader, left: u32, words: &[Word]) -> Result<Head, Stop>
    ensures gives { Gives (λ h. head_of r.new.graph.nodes h) result (block_line (env_in r.old) left (all_said words.now)) }
    ensures known { IfOk result (HeadKnown r.new.graph) }
    ensures on { Onward r.old r.new }
    ensures adds { IfOk result (λ h. AddsParts r.old.graph r.new.graph (types_in_head (head_of r.new.graph.nodes h))) }
{
    match words {
        [Word::IfWord, rest @ ..] => read_if(r, left, rest),
        [Word::SwitchWord, rest @ ..] => read_switch(r, left, rest),
        [Word::WhileWord, ..] => Ok(Head::Looped),
        [Word::LeftBrace, ..] => Ok(Head::Opened),
        [Word::RightBrace, rest @ ..] => Ok(behind_brace(rest)),
        _ => Err(Stop::NotCil),
    }
}

/// A line with a case label or a jump.
fn jump_line(r: &mut Reader, labels: &Numbering, left: u32, words: &[Word]) -> Result<Head, Stop>
    ensures gives { Gives (λ h. head_of r.new.graph.nodes h) result (jump_line (env_in r.old) labels.now left (all_said words.now)) }
    ensures known { IfOk result (HeadKnown r.new.graph) }
    ensures on { Onward r.old r.new }
    ensures adds { IfOk result (λ h. AddsParts r.old.graph r.new.graph (types_in_head (head_of r.new.graph.nodes h))) }
{
    match words {
        [Word::CaseWord, rest @ ..] => case_line(r, rest),
        [Word::DefaultWord, ..] => whole(r, Stmt::Default),
        [Word::GotoWord, rest @ ..] => goto_line(r, labels, rest),
        [Word::BreakWord, ..] => whole(r, Stmt::Break),
        [Word::ReturnWord, rest @ ..] => read_return(r, left, rest),
        _ => Err(Stop::NotCil),
    }
}

/// A line of a function's body whose labels have these names (C11 6.8).
pub(crate) fn read_head(
    r: &mut Reader,
    labels: &Numbering,
    left: u32,
    words: &[Word],
) -> Result<Head, Stop>
    ensures gives { Gives (λ h. head_of r.new.graph.nodes h) result (read_head (env_in r.old) labels.now left (all_said words.now)) }
    ensures known { IfOk result (HeadKnown r.new.graph) }
    ensures on { Onward r.old r.new }
    ensures adds { IfOk result (λ h. AddsParts r.old.graph r.new.graph (types_in_head (head_of r.new.graph.nodes h))) }
{
    if is_block(words) {
        return block_line(r, left, words);
    }
    if is_jump(words) {
        return jump_line(r, labels, left, words);
    }
    read_simple(r, labels, left, words)
}

/// The lines of a function's body whose labels have these names.
#[tactic(auto, using(crate::proofs::HeadsLaws::heads_fail, crate::proofs::HeadsLaws::no_heads, crate::proofs::OnwardLaws::onward_twice, crate::proofs::OnwardLaws::onward_none, cil_text::proofs::PartsAdded::adds_none))]
pub(crate) fn read_heads(
    r: &mut Reader,
    labels: &Numbering,
    left: u32,
    lines: &[Vec<Word>],
) -> Result<Vec<Head>, Stop>
    ensures gives { Gives (λ hs. heads_of r.new.graph.nodes hs.items) result (read_heads (env_in r.old) labels.now left (all_lines lines.now)) }
    ensures known { IfOk result (λ hs. HeadsKnown r.new.graph hs.items) }
    ensures on { Onward r.old r.new }
    ensures adds { IfOk result (λ hs. AddsParts r.old.graph r.new.graph (types_in_heads (heads_of r.new.graph.nodes hs.items))) }
{
    let mut heads = Vec::new(r.alloc());
    for i in 0..lines.len() {
        let head = read_head(r, labels, left, &lines[i])?;
        heads.push(head)?;
    }
    Ok(heads)
}
