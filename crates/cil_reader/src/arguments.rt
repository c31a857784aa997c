ghost use Rattle.std.specs.Prelude.{IfOk};
ghost use Rattle.type_graph.specs.Arena.{Graph};
ghost use Rattle.cil_text.specs.ReadExps.{read_exp};
ghost use Rattle.cil_text.specs.ReadStmts.{read_args, read_list};
ghost use Rattle.cil_text.specs.TypesOf.{AddsParts, types_in_args};
ghost use Rattle.cil_scan.specs.Said.{all_said};
ghost use Rattle.cil_declarators.specs.Gives.{Gives};
ghost use Rattle.cil_reader.specs.Settings.{Onward, env_in};
ghost use Rattle.cil_reader.specs.Instructions.{args_of, ArgsKnown, argument_more, arguments_of};

use crate::operands::read_exp;
use crate::reader::Reader;
use cil_declarators::Stop;
use cil_forms::{behind_argument, closing};
use cil_nodes::push_argument;
use cil_scan::Word;
use cil_tree::Exp;

/// Arguments that were read, what stands behind them, and whether the last one is among them.
#[derive(Drop)]
struct Arguments<'w, 'a> {
    all: Vec<Exp>,
    rest: &'w [Word<'a>],
    closed: bool,
}

/// One argument more.
#[tactic(auto, using(crate::proofs::InstructionLaws::argument_gives, crate::proofs::InstructionLaws::argument_open, crate::proofs::InstructionLaws::argument_fails, crate::proofs::OnwardLaws::onward_grows))]
fn one_argument<'w, 'a>(
    r: &mut Reader,
    left: u32,
    args: Arguments<'w, 'a>,
) -> Result<Arguments<'w, 'a>, Stop>
    requires { ArgsKnown r.old.graph args.all.items }
    ensures gives { Gives (λ x. arguments_of r.new.graph.nodes x) result (argument_more (args_of r.old.graph.nodes args.entry.all.items) (read_exp (env_in r.old) left (all_said args.entry.rest.now))) }
    ensures known { IfOk result (λ x. ArgsKnown r.new.graph x.all.items) }
    ensures on { Onward r.old r.new }
    ensures adds { (f : Graph) → AddsParts f r.old.graph (types_in_args (args_of r.old.graph.nodes args.entry.all.items)) → IfOk result (λ x. AddsParts f r.new.graph (types_in_args (args_of r.new.graph.nodes x.all.items))) }
{
    let (operand, rest) = read_exp(r, left, args.rest)?;
    let mut all = args.all;
    push_argument(&mut all, operand.exp)?;
    match behind_argument(rest) {
        Some((closed, rest)) => Ok(Arguments { all, rest, closed }),
        None => Err(Stop::NotCil),
    }
}

/// Arguments, at least one, up to `)`. Their number is bounded.
#[tactic(auto, using(crate::proofs::InstructionLaws::list_start, crate::proofs::InstructionLaws::list_closed, crate::proofs::InstructionLaws::list_over, crate::proofs::InstructionLaws::no_args, crate::proofs::OnwardLaws::onward_none, crate::proofs::OnwardLaws::onward_twice, cil_text::proofs::PartsAdded::adds_none))]
fn read_list<'w, 'a>(
    r: &mut Reader,
    left: u32,
    words: &'w [Word<'a>],
) -> Result<(Vec<Exp>, &'w [Word<'a>]), Stop>
    ensures gives { Gives (λ x. (args_of r.new.graph.nodes x.0.items, all_said x.1.now)) result (read_list (read_exp (env_in r.old) left) left (all_said words.now)) }
    ensures known { IfOk result (λ x. ArgsKnown r.new.graph x.0.items) }
    ensures on { Onward r.old r.new }
    ensures adds { IfOk result (λ x. AddsParts r.old.graph r.new.graph (types_in_args (args_of r.new.graph.nodes x.0.items))) }
{
    let mut args = Arguments {
        all: Vec::new(r.alloc()),
        rest: words,
        closed: false,
    };
    let mut steps = left;
    while steps > 0 && !args.closed {
        args = one_argument(r, left, args)?;
        steps -= 1;
    }
    if !args.closed {
        return Err(Stop::NotCil);
    }
    Ok((args.all, args.rest))
}

/// Behind the `(` of a call: its arguments and `)` (C11 6.5.2.2).
#[tactic(auto, using(crate::proofs::InstructionLaws::args_closing, crate::proofs::InstructionLaws::args_next, crate::proofs::InstructionLaws::no_args, crate::proofs::OnwardLaws::onward_none, cil_text::proofs::PartsAdded::adds_none))]
pub(crate) fn read_args<'w, 'a>(
    r: &mut Reader,
    left: u32,
    words: &'w [Word<'a>],
) -> Result<(Vec<Exp>, &'w [Word<'a>]), Stop>
    ensures gives { Gives (λ x. (args_of r.new.graph.nodes x.0.items, all_said x.1.now)) result (read_args (read_exp (env_in r.old) left) left (all_said words.now)) }
    ensures known { IfOk result (λ x. ArgsKnown r.new.graph x.0.items) }
    ensures on { Onward r.old r.new }
    ensures adds { IfOk result (λ x. AddsParts r.old.graph r.new.graph (types_in_args (args_of r.new.graph.nodes x.0.items))) }
{
    if let Some(rest) = closing(words) {
        return Ok((Vec::new(r.alloc()), rest));
    }
    read_list(r, left, words)
}
