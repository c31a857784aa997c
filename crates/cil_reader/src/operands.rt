ghost use Rattle.std.specs.Prelude.{◌≡◌, ◌<◌, Some, IfOk, length, [], ◌∷◌};
ghost use Rattle.std.specs.Option.{option_map, option_and_then};
ghost use Rattle.type_graph.specs.Shapes.{shape};
ghost use Rattle.type_graph.specs.Arena.{Graph};
ghost use Rattle.cil_tree.specs.Tree.{Un, Bin, Cast, AddrOf, At, Place, Here};
ghost use Rattle.cil_tree.specs.View.{exp_of, host_of, lval_of};
ghost use Rattle.cil_text.specs.Words.{LeftParen};
ghost use Rattle.cil_text.specs.ReadTypes.{read_decl};
ghost use Rattle.cil_text.specs.ReadExps.{bases, enclosed, read_exp, read_formed, read_chosen, read_place, read_host, read_offsets, read_cast, read_binary, read_right, type_at_host, host_named, find_named, fields, in_brackets};
ghost use Rattle.cil_text.specs.TypesOf.{AddsParts, types_in_exp, types_in_host, types_in_place};
ghost use Rattle.cil_scan.specs.Said.{all_said};
ghost use Rattle.cil_declarators.specs.Gives.{Gives};
ghost use Rattle.cil_reader.specs.Settings.{Onward, env_in, type_in};
ghost use Rattle.cil_reader.specs.Parts.{ExpKnown, HostKnown, PlaceKnown, constant_read, host_read, exp_within, part_behind, walked, one_step, to_field, to_element};
ghost use Rattle.cil_forms.specs.Forms.{form_said};

use crate::parts::{
    Based, Located, Operand, chosen, step_to_element, step_to_member, with_address, with_base,
    with_binary, with_cast, with_constant, with_pointer, with_unary,
};
use crate::reader::Reader;
use cil_base::{BinOp, IntKind, TypeId, UnOp};
use cil_declarators::Stop;
use cil_forms::{Form, bracketed, closing, form_of, is_offset, skip_one};
use cil_scan::Word;

/// A place with its type, and what stands behind it.
#[derive(Drop)]
struct Walk<'w, 'a> {
    located: Located,
    rest: &'w [Word<'a>],
}

/// The constant of a word with this kind, and what stands behind it.
#[tactic(auto, using(cil_text::proofs::PartsAdded::adds_none))]
fn one_constant<'w, 'a>(
    r: &Reader,
    kind: IntKind,
    n: u64,
    rest: &'w [Word<'a>],
) -> Result<(Operand, &'w [Word<'a>]), Stop>
    ensures gives { Gives (λ x. (exp_of r.now.graph.nodes x.0.exp.value, all_said x.1.now)) result (constant_read (env_in r.now).abi kind n (all_said rest.now)) }
    ensures known { IfOk result (λ x. ExpKnown r.now.graph (env_in r.now) x.0.exp.value x.0.to) }
    ensures adds { IfOk result (λ x. AddsParts r.now.graph r.now.graph (types_in_exp (exp_of r.now.graph.nodes x.0.exp.value))) }
{
    let own = r.kind(kind);
    Ok((with_constant(r, own, n)?, rest))
}

/// An expression (C11 6.5). What stands within it is read with one step less.
#[cycle(expression)]
#[tactic(auto, using(crate::proofs::OperandLaws::exp_none, crate::proofs::OperandLaws::exp_step, crate::proofs::OnwardLaws::onward_none))]
pub(crate) fn read_exp<'w, 'a>(
    r: &mut Reader,
    left: u32,
    words: &'w [Word<'a>],
) -> Result<(Operand, &'w [Word<'a>]), Stop>
    ensures gives { Gives (λ x. (exp_of r.new.graph.nodes x.0.exp.value, all_said x.1.now)) result (read_exp (env_in r.old) left (all_said words.now)) }
    ensures known { IfOk result (λ x. ExpKnown r.new.graph (env_in r.new) x.0.exp.value x.0.to) }
    ensures on { Onward r.old r.new }
    ensures adds { IfOk result (λ x. AddsParts r.old.graph r.new.graph (types_in_exp (exp_of r.new.graph.nodes x.0.exp.value))) }
{
    if left == 0 {
        return Err(Stop::NotCil);
    }
    exp_within(r, left - 1, words)
}

/// An expression, within which others are read with so many steps.
#[cycle(expression)]
#[tactic(auto, using(crate::proofs::OnwardLaws::onward_none))]
fn exp_within<'w, 'a>(
    r: &mut Reader,
    left: u32,
    words: &'w [Word<'a>],
) -> Result<(Operand, &'w [Word<'a>]), Stop>
    ensures gives { Gives (λ x. (exp_of r.new.graph.nodes x.0.exp.value, all_said x.1.now)) result (exp_within (env_in r.old) left (all_said words.now)) }
    ensures known { IfOk result (λ x. ExpKnown r.new.graph (env_in r.new) x.0.exp.value x.0.to) }
    ensures on { Onward r.old r.new }
    ensures adds { IfOk result (λ x. AddsParts r.old.graph r.new.graph (types_in_exp (exp_of r.new.graph.nodes x.0.exp.value))) }
{
    match words {
        [Word::Number(kind, n), rest @ ..] => one_constant(r, *kind, *n, rest),
        [Word::Name(_), ..] => read_chosen(r, left, words),
        [Word::LeftParen, rest @ ..] => read_formed(r, left, form_of(rest), words, rest),
        _ => Err(Stop::NotCil),
    }
}

/// What stands in parentheses, by its form.
#[cycle(expression)]
fn read_formed<'w, 'a>(
    r: &mut Reader,
    left: u32,
    form: Form,
    words: &'w [Word<'a>],
    inner: &'w [Word<'a>],
) -> Result<(Operand, &'w [Word<'a>]), Stop>
    requires { all_said words.now ≡ LeftParen ∷ all_said inner.now }
    ensures gives { Gives (λ x. (exp_of r.new.graph.nodes x.0.exp.value, all_said x.1.now)) result (read_formed (env_in r.old) (read_exp (env_in r.old) left) (read_decl (bases (env_in r.old)) left) left (form_said form) (all_said inner.now)) }
    ensures known { IfOk result (λ x. ExpKnown r.new.graph (env_in r.new) x.0.exp.value x.0.to) }
    ensures on { Onward r.old r.new }
    ensures adds { IfOk result (λ x. AddsParts r.old.graph r.new.graph (types_in_exp (exp_of r.new.graph.nodes x.0.exp.value))) }
{
    match form {
        Form::Negated => one_operand(r, left, UnOp::Neg, skip_one(inner)),
        Form::Complemented => one_operand(r, left, UnOp::Compl, skip_one(inner)),
        Form::Denied => one_operand(r, left, UnOp::Not, skip_one(inner)),
        Form::Addressed => read_address(r, left, skip_one(inner)),
        Form::Pointed => read_chosen(r, left, words),
        Form::Converted => read_cast(r, left, skip_one(inner)),
        Form::Combined => read_binary(r, left, inner),
    }
}

/// Behind a unary operator: its operand and `)` (C11 6.5.3.3).
#[cycle(expression)]
#[tactic(auto, using(crate::proofs::OperandLaws::enclosed_gives, crate::proofs::OperandLaws::enclosed_open, crate::proofs::OperandLaws::enclosed_fails))]
fn one_operand<'w, 'a>(
    r: &mut Reader,
    left: u32,
    op: UnOp,
    words: &'w [Word<'a>],
) -> Result<(Operand, &'w [Word<'a>]), Stop>
    ensures gives { Gives (λ x. (exp_of r.new.graph.nodes x.0.exp.value, all_said x.1.now)) result (enclosed (Un op) (read_exp (env_in r.old) left (all_said words.now))) }
    ensures known { IfOk result (λ x. ExpKnown r.new.graph (env_in r.new) x.0.exp.value x.0.to) }
    ensures on { Onward r.old r.new }
    ensures adds { IfOk result (λ x. AddsParts r.old.graph r.new.graph (types_in_exp (exp_of r.new.graph.nodes x.0.exp.value))) }
{
    let (operand, rest) = read_exp(r, left, words)?;
    let Some(behind) = closing(rest) else {
        return Err(Stop::NotCil);
    };
    Ok((with_unary(r, op, operand)?, behind))
}

/// Behind `&`: a place and `)` (C11 6.5.3.2).
#[cycle(expression)]
#[tactic(auto, using(crate::proofs::OperandLaws::enclosed_gives, crate::proofs::OperandLaws::enclosed_open, crate::proofs::OperandLaws::enclosed_fails))]
fn read_address<'w, 'a>(
    r: &mut Reader,
    left: u32,
    words: &'w [Word<'a>],
) -> Result<(Operand, &'w [Word<'a>]), Stop>
    ensures gives { Gives (λ x. (exp_of r.new.graph.nodes x.0.exp.value, all_said x.1.now)) result (enclosed AddrOf (read_place (env_in r.old) (read_exp (env_in r.old) left) left (all_said words.now))) }
    ensures known { IfOk result (λ x. ExpKnown r.new.graph (env_in r.new) x.0.exp.value x.0.to) }
    ensures on { Onward r.old r.new }
    ensures adds { IfOk result (λ x. AddsParts r.old.graph r.new.graph (types_in_exp (exp_of r.new.graph.nodes x.0.exp.value))) }
{
    let (located, rest) = read_place(r, left, words)?;
    let Some(behind) = closing(rest) else {
        return Err(Stop::NotCil);
    };
    Ok((with_address(r, located)?, behind))
}

/// A place in an expression.
#[cycle(expression)]
#[tactic(auto, using(crate::proofs::OperandLaws::chosen_fails))]
fn read_chosen<'w, 'a>(
    r: &mut Reader,
    left: u32,
    words: &'w [Word<'a>],
) -> Result<(Operand, &'w [Word<'a>]), Stop>
    ensures gives { Gives (λ x. (exp_of r.new.graph.nodes x.0.exp.value, all_said x.1.now)) result (read_chosen (env_in r.old) (read_exp (env_in r.old) left) left (all_said words.now)) }
    ensures known { IfOk result (λ x. ExpKnown r.new.graph (env_in r.new) x.0.exp.value x.0.to) }
    ensures on { Onward r.old r.new }
    ensures adds { IfOk result (λ x. AddsParts r.old.graph r.new.graph (types_in_exp (exp_of r.new.graph.nodes x.0.exp.value))) }
{
    let (located, rest) = read_place(r, left, words)?;
    Ok((chosen(r, located)?, rest))
}

/// Behind the `(` of a type's name: the rest of a conversion (C11 6.5.4).
#[cycle(expression)]
#[tactic(auto, using(crate::proofs::OperandLaws::cast_next, crate::proofs::OperandLaws::cast_open, crate::proofs::OperandLaws::cast_fails, crate::proofs::OnwardLaws::onward_env))]
fn read_cast<'w, 'a>(
    r: &mut Reader,
    left: u32,
    words: &'w [Word<'a>],
) -> Result<(Operand, &'w [Word<'a>]), Stop>
    ensures gives { Gives (λ x. (exp_of r.new.graph.nodes x.0.exp.value, all_said x.1.now)) result (read_cast (read_exp (env_in r.old) left) (read_decl (bases (env_in r.old)) left) (all_said words.now)) }
    ensures known { IfOk result (λ x. ExpKnown r.new.graph (env_in r.new) x.0.exp.value x.0.to) }
    ensures on { Onward r.old r.new }
    ensures adds { IfOk result (λ x. AddsParts r.old.graph r.new.graph (types_in_exp (exp_of r.new.graph.nodes x.0.exp.value))) }
{
    let (named, rest) = r.read_decl(left, words)?;
    let Some(behind) = closing(rest) else {
        return Err(Stop::NotCil);
    };
    cast_operand(r, left, named.ty, behind)
}

/// What is converted to a type, and `)`.
#[cycle(expression)]
#[tactic(auto, using(crate::proofs::OperandLaws::enclosed_gives, crate::proofs::OperandLaws::enclosed_open, crate::proofs::OperandLaws::enclosed_fails, crate::proofs::OnwardLaws::onward_grows, type_graph::proofs::ShapeLaws::kept))]
fn cast_operand<'w, 'a>(
    r: &mut Reader,
    left: u32,
    to: TypeId,
    words: &'w [Word<'a>],
) -> Result<(Operand, &'w [Word<'a>]), Stop>
    requires { to.0 < length r.old.graph.nodes }
    ensures gives { Gives (λ x. (exp_of r.new.graph.nodes x.0.exp.value, all_said x.1.now)) result (enclosed (Cast (Some (shape r.old.graph.nodes to.0))) (read_exp (env_in r.old) left (all_said words.now))) }
    ensures known { IfOk result (λ x. ExpKnown r.new.graph (env_in r.new) x.0.exp.value x.0.to) }
    ensures on { Onward r.old r.new }
    ensures adds { (f : Graph) → AddsParts f r.old.graph (shape r.old.graph.nodes to.0 ∷ []) → IfOk result (λ x. AddsParts f r.new.graph (types_in_exp (exp_of r.new.graph.nodes x.0.exp.value))) }
{
    let (operand, rest) = read_exp(r, left, words)?;
    let Some(behind) = closing(rest) else {
        return Err(Stop::NotCil);
    };
    Ok((with_cast(r, to, operand)?, behind))
}

/// An expression, an operator, another one and `)` (C11 6.5.5 to 6.5.12).
#[cycle(expression)]
#[tactic(auto, using(crate::proofs::OperandLaws::binary_fails))]
fn read_binary<'w, 'a>(
    r: &mut Reader,
    left: u32,
    words: &'w [Word<'a>],
) -> Result<(Operand, &'w [Word<'a>]), Stop>
    ensures gives { Gives (λ x. (exp_of r.new.graph.nodes x.0.exp.value, all_said x.1.now)) result (read_binary (read_exp (env_in r.old) left) (all_said words.now)) }
    ensures known { IfOk result (λ x. ExpKnown r.new.graph (env_in r.new) x.0.exp.value x.0.to) }
    ensures on { Onward r.old r.new }
    ensures adds { IfOk result (λ x. AddsParts r.old.graph r.new.graph (types_in_exp (exp_of r.new.graph.nodes x.0.exp.value))) }
{
    let (operand, rest) = read_exp(r, left, words)?;
    read_right(r, left, operand, rest)
}

/// Behind the left operand: the operator, the right one and `)`.
#[cycle(expression)]
#[tactic(auto, using(crate::proofs::OnwardLaws::onward_none))]
fn read_right<'w, 'a>(
    r: &mut Reader,
    left: u32,
    x: Operand,
    words: &'w [Word<'a>],
) -> Result<(Operand, &'w [Word<'a>]), Stop>
    requires { ExpKnown r.old.graph (env_in r.old) x.exp.value x.to }
    ensures gives { Gives (λ x. (exp_of r.new.graph.nodes x.0.exp.value, all_said x.1.now)) result (read_right (read_exp (env_in r.old) left) (exp_of r.old.graph.nodes x.exp.value) (all_said words.now)) }
    ensures known { IfOk result (λ x. ExpKnown r.new.graph (env_in r.new) x.0.exp.value x.0.to) }
    ensures on { Onward r.old r.new }
    ensures adds { (f : Graph) → AddsParts f r.old.graph (types_in_exp (exp_of r.old.graph.nodes x.exp.value)) → IfOk result (λ y. AddsParts f r.new.graph (types_in_exp (exp_of r.new.graph.nodes y.0.exp.value))) }
{
    match words {
        [Word::Operator(op), rest @ ..] => right_operand(r, left, *op, x, rest),
        _ => Err(Stop::NotCil),
    }
}

/// The right operand and `)`.
#[cycle(expression)]
#[tactic(auto, using(crate::proofs::OperandLaws::enclosed_gives, crate::proofs::OperandLaws::enclosed_fails, crate::proofs::OnwardLaws::onward_grows, crate::proofs::PartsLaws::exp_same))]
fn right_operand<'w, 'a>(
    r: &mut Reader,
    left: u32,
    op: BinOp,
    x: Operand,
    words: &'w [Word<'a>],
) -> Result<(Operand, &'w [Word<'a>]), Stop>
    requires { ExpKnown r.old.graph (env_in r.old) x.exp.value x.to }
    ensures gives { Gives (λ x. (exp_of r.new.graph.nodes x.0.exp.value, all_said x.1.now)) result (enclosed (Bin op (exp_of r.old.graph.nodes x.exp.value)) (read_exp (env_in r.old) left (all_said words.now))) }
    ensures known { IfOk result (λ x. ExpKnown r.new.graph (env_in r.new) x.0.exp.value x.0.to) }
    ensures on { Onward r.old r.new }
    ensures adds { (f : Graph) → AddsParts f r.old.graph (types_in_exp (exp_of r.old.graph.nodes x.exp.value)) → IfOk result (λ y. AddsParts f r.new.graph (types_in_exp (exp_of r.new.graph.nodes y.0.exp.value))) }
{
    let (operand, rest) = read_exp(r, left, words)?;
    let Some(behind) = closing(rest) else {
        return Err(Stop::NotCil);
    };
    Ok((with_binary(r, op, x, operand)?, behind))
}

/// A place (C11 6.3.2.1p1).
#[cycle(expression)]
#[tactic(auto, using(crate::proofs::OperandLaws::place_fails))]
pub(crate) fn read_place<'w, 'a>(
    r: &mut Reader,
    left: u32,
    words: &'w [Word<'a>],
) -> Result<(Located, &'w [Word<'a>]), Stop>
    ensures gives { Gives (λ x. (lval_of r.new.graph.nodes x.0.place, all_said x.1.now)) result (read_place (env_in r.old) (read_exp (env_in r.old) left) left (all_said words.now)) }
    ensures known { IfOk result (λ x. PlaceKnown r.new.graph (env_in r.new) x.0.place x.0.ty) }
    ensures on { Onward r.old r.new }
    ensures adds { IfOk result (λ x. AddsParts r.old.graph r.new.graph (types_in_place (lval_of r.new.graph.nodes x.0.place))) }
{
    let (based, rest) = read_host(r, left, words)?;
    behind_host(r, left, based, rest)
}

/// Behind what a place begins with.
#[cycle(expression)]
#[tactic(auto, using(crate::proofs::PartsLaws::host_typed))]
fn behind_host<'w, 'a>(
    r: &mut Reader,
    left: u32,
    based: Based,
    words: &'w [Word<'a>],
) -> Result<(Located, &'w [Word<'a>]), Stop>
    requires { HostKnown r.old.graph (env_in r.old) based.host based.ty }
    ensures gives { Gives (λ x. (lval_of r.new.graph.nodes x.0.place, all_said x.1.now)) result (option_map (part_behind (Place (host_of r.old.graph.nodes based.host) Here)) (read_offsets (env_in r.old) (read_exp (env_in r.old) left) left (type_at_host (env_in r.old) (host_of r.old.graph.nodes based.host)) (all_said words.now))) }
    ensures known { IfOk result (λ x. PlaceKnown r.new.graph (env_in r.new) x.0.place x.0.ty) }
    ensures on { Onward r.old r.new }
    ensures adds { (f : Graph) → AddsParts f r.old.graph (types_in_host (host_of r.old.graph.nodes based.host)) → IfOk result (λ x. AddsParts f r.new.graph (types_in_place (lval_of r.new.graph.nodes x.0.place))) }
{
    let located = with_base(r, based);
    let rest = words;
    let read = read_offsets(r, left, Walk { located, rest })?;
    Ok((read.located, read.rest))
}

/// What a name means in front of a place, and what stands behind it.
#[tactic(auto, using(cil_text::proofs::PartsAdded::adds_none))]
fn named_host<'w, 'a>(
    r: &Reader,
    name: &[u8],
    rest: &'w [Word<'a>],
) -> Result<(Based, &'w [Word<'a>]), Stop>
    ensures gives { Gives (λ x. (host_of r.now.graph.nodes x.0.host, all_said x.1.now)) result (host_read (all_said rest.now) (host_named (env_in r.now) name.now)) }
    ensures known { IfOk result (λ x. HostKnown r.now.graph (env_in r.now) x.0.host x.0.ty) }
    ensures adds { IfOk result (λ x. AddsParts r.now.graph r.now.graph (types_in_host (host_of r.now.graph.nodes x.0.host))) }
{
    match r.host_named(name) {
        Some(based) => Ok((based, rest)),
        None => Err(Stop::NotCil),
    }
}

/// What a place begins with: a name, or what a pointer points to.
#[cycle(expression)]
#[tactic(auto, using(crate::proofs::OnwardLaws::onward_none))]
fn read_host<'w, 'a>(
    r: &mut Reader,
    left: u32,
    words: &'w [Word<'a>],
) -> Result<(Based, &'w [Word<'a>]), Stop>
    ensures gives { Gives (λ x. (host_of r.new.graph.nodes x.0.host, all_said x.1.now)) result (read_host (env_in r.old) (read_exp (env_in r.old) left) (all_said words.now)) }
    ensures known { IfOk result (λ x. HostKnown r.new.graph (env_in r.new) x.0.host x.0.ty) }
    ensures on { Onward r.old r.new }
    ensures adds { IfOk result (λ x. AddsParts r.old.graph r.new.graph (types_in_host (host_of r.new.graph.nodes x.0.host))) }
{
    match words {
        [Word::Name(name), rest @ ..] => named_host(r, name, rest),
        [Word::LeftParen, Word::Operator(BinOp::Mul), rest @ ..] => pointed_host(r, left, rest),
        _ => Err(Stop::NotCil),
    }
}

/// Behind `( *`: a pointer and `)` (C11 6.5.3.2p4).
#[cycle(expression)]
#[tactic(auto, using(crate::proofs::OperandLaws::enclosed_gives, crate::proofs::OperandLaws::enclosed_open, crate::proofs::OperandLaws::enclosed_fails))]
fn pointed_host<'w, 'a>(
    r: &mut Reader,
    left: u32,
    words: &'w [Word<'a>],
) -> Result<(Based, &'w [Word<'a>]), Stop>
    ensures gives { Gives (λ x. (host_of r.new.graph.nodes x.0.host, all_said x.1.now)) result (enclosed At (read_exp (env_in r.old) left (all_said words.now))) }
    ensures known { IfOk result (λ x. HostKnown r.new.graph (env_in r.new) x.0.host x.0.ty) }
    ensures on { Onward r.old r.new }
    ensures adds { IfOk result (λ x. AddsParts r.old.graph r.new.graph (types_in_host (host_of r.new.graph.nodes x.0.host))) }
{
    let (operand, rest) = read_exp(r, left, words)?;
    let Some(behind) = closing(rest) else {
        return Err(Stop::NotCil);
    };
    Ok((with_pointer(r, operand), behind))
}

/// Steps into a part of a place. Their number is bounded.
#[cycle(expression)]
#[tactic(auto, using(crate::proofs::OperandLaws::offsets_end, crate::proofs::OperandLaws::offsets_over, crate::proofs::OnwardLaws::onward_none, crate::proofs::OnwardLaws::onward_twice))]
fn read_offsets<'w, 'a>(r: &mut Reader, left: u32, walk: Walk<'w, 'a>) -> Result<Walk<'w, 'a>, Stop>
    requires { PlaceKnown r.old.graph (env_in r.old) walk.located.place walk.located.ty }
    ensures gives { Gives (λ x. (lval_of r.new.graph.nodes x.located.place, all_said x.rest.now)) result (option_map (part_behind (lval_of r.old.graph.nodes walk.entry.located.place)) (read_offsets (env_in r.old) (read_exp (env_in r.old) left) left (type_in r.old.graph.nodes walk.entry.located.ty) (all_said walk.entry.rest.now))) }
    ensures known { IfOk result (λ x. PlaceKnown r.new.graph (env_in r.new) x.located.place x.located.ty) }
    ensures on { Onward r.old r.new }
    ensures adds { (f : Graph) → AddsParts f r.old.graph (types_in_place (lval_of r.old.graph.nodes walk.entry.located.place)) → IfOk result (λ x. AddsParts f r.new.graph (types_in_place (lval_of r.new.graph.nodes x.located.place))) }
{
    let mut at = walk;
    let mut steps = left;
    while steps > 0 && is_offset(at.rest) {
        at = one_step(r, left, at)?;
        steps -= 1;
    }
    if steps == 0 {
        return Err(Stop::NotCil);
    }
    Ok(at)
}

/// A member or an element of a place.
#[cycle(expression)]
#[tactic(auto, using(crate::proofs::OnwardLaws::onward_none))]
fn one_step<'w, 'a>(r: &mut Reader, left: u32, walk: Walk<'w, 'a>) -> Result<Walk<'w, 'a>, Stop>
    requires { PlaceKnown r.old.graph (env_in r.old) walk.located.place walk.located.ty }
    ensures gives { Gives (λ x. walked r.new.graph.nodes x) result (one_step (env_in r.old) (read_exp (env_in r.old) left) (lval_of r.old.graph.nodes walk.entry.located.place) (type_in r.old.graph.nodes walk.entry.located.ty) (all_said walk.entry.rest.now)) }
    ensures known { IfOk result (λ x. PlaceKnown r.new.graph (env_in r.new) x.located.place x.located.ty) }
    ensures on { Onward r.old r.new }
    ensures adds { (f : Graph) → AddsParts f r.old.graph (types_in_place (lval_of r.old.graph.nodes walk.entry.located.place)) → IfOk result (λ x. AddsParts f r.new.graph (types_in_place (lval_of r.new.graph.nodes x.located.place))) }
{
    match walk.rest {
        [Word::Dot, Word::Name(name), rest @ ..] => one_field(r, walk.located, name, rest),
        [Word::LeftBracket, rest @ ..] => one_element(r, left, walk.located, rest),
        _ => Err(Stop::NotCil),
    }
}

/// Behind `.`: a member, and what stands behind it.
#[tactic(auto, using(crate::proofs::PartsLaws::place_below, crate::proofs::AddedTrees::field_adds))]
fn one_field<'w, 'a>(
    r: &Reader,
    located: Located,
    name: &[u8],
    rest: &'w [Word<'a>],
) -> Result<Walk<'w, 'a>, Stop>
    requires { PlaceKnown r.now.graph (env_in r.now) located.place located.ty }
    ensures gives { Gives (λ x. walked r.now.graph.nodes x) result (option_map (to_field (lval_of r.now.graph.nodes located.place) (fields (env_in r.now) (type_in r.now.graph.nodes located.ty)) (all_said rest.now)) (find_named name.now (fields (env_in r.now) (type_in r.now.graph.nodes located.ty)))) }
    ensures known { IfOk result (λ x. PlaceKnown r.now.graph (env_in r.now) x.located.place x.located.ty) }
    ensures adds { (f : Graph) → AddsParts f r.now.graph (types_in_place (lval_of r.now.graph.nodes located.place)) → IfOk result (λ x. AddsParts f r.now.graph (types_in_place (lval_of r.now.graph.nodes x.located.place))) }
{
    let Some((number, ty)) = r.field(located.ty, name) else {
        return Err(Stop::NotCil);
    };
    let mut located = located;
    step_to_member(r, &mut located, number, ty)?;
    Ok(Walk { located, rest })
}

/// Behind `[`: an index and `]`.
#[cycle(expression)]
#[tactic(auto, using(crate::proofs::OperandLaws::element_gives, crate::proofs::OperandLaws::element_open, crate::proofs::OperandLaws::element_fails, crate::proofs::OnwardLaws::onward_grows, crate::proofs::PartsLaws::place_same, crate::proofs::PartsLaws::type_later))]
fn one_element<'w, 'a>(
    r: &mut Reader,
    left: u32,
    located: Located,
    words: &'w [Word<'a>],
) -> Result<Walk<'w, 'a>, Stop>
    requires { PlaceKnown r.old.graph (env_in r.old) located.place located.ty }
    ensures gives { Gives (λ x. walked r.new.graph.nodes x) result (option_map (to_element (lval_of r.old.graph.nodes located.place) (type_in r.old.graph.nodes located.ty)) (option_and_then (λ y. in_brackets y.0 y.1) (read_exp (env_in r.old) left (all_said words.now)))) }
    ensures known { IfOk result (λ x. PlaceKnown r.new.graph (env_in r.new) x.located.place x.located.ty) }
    ensures on { Onward r.old r.new }
    ensures adds { (f : Graph) → AddsParts f r.old.graph (types_in_place (lval_of r.old.graph.nodes located.place)) → IfOk result (λ x. AddsParts f r.new.graph (types_in_place (lval_of r.new.graph.nodes x.located.place))) }
{
    let (index, rest) = read_exp(r, left, words)?;
    let Some(rest) = bracketed(rest) else {
        return Err(Stop::NotCil);
    };
    let mut located = located;
    step_to_element(r, &mut located, index)?;
    Ok(Walk { located, rest })
}
