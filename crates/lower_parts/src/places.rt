ghost use Rattle.std.specs.Prelude.{◌≡◌, ◌<◌, ◌++◌, ◌∷◌, [], List, length, false, IfOk, OnOk, MatchOption};
ghost use Rattle.type_graph.specs.declared.nodes.Node.{Node};
ghost use Rattle.cil_tree.specs.View.{exp_of, lval_of};
ghost use Rattle.cil_tree.specs.declared.statements.Instr.TheVariants as instr;
ghost use Rattle.cil_tree.specs.declared.statements.Stmt.TheVariants as stmt;
ghost use Rattle.cil_nodes.specs.Built.{IsValue, IsField, IsElement};
ghost use Rattle.lower_parts.specs.Code.{Extends, IsVariable, Saves, Reads, IsLeft, IsLeftPlace, IsAddressOf, is_variable, Names, Keeps, is_found, is_variable_value, IsHeld, IsMemberOf, IsStep, IsPart, StoresPart, Clears};
ghost use Rattle.lower_parts.specs.Hosts.{IsHostAddress, IsWhole};

use crate::output::FunctionOut;
use crate::shapes::{element_of, impossible, is_function, member_of, pointer_to};
use cil_base::{BinOp, EntityId, IntKind, LocalId, Memory, TypeId};
use cil_nodes::{
    add_element, add_field, address, at, binary, boxed, constant, start, value, whole, zero,
};
use cil_tree::{Exp, Host, Instr, Lval, Offset, Stmt};
use std::alloc::Global;
use typed_tree::{Path, Step, TypedExp, TypedNode};

/// A place that can be named any number of times, and is the same one each time.
#[derive(Clone, Copy)]
pub enum Kept {
    /// A variable that is printed with the place's type.
    Global(EntityId),
    /// A local that is printed with the place's type.
    Local(LocalId),
    /// What the pointer in a temporary points to.
    Behind(LocalId),
}

/// The place of a local.
pub fn variable(alloc: Global, n: LocalId) -> Lval
    ensures { IsVariable n result }
{
    whole(alloc, Host::Var(n))
}

/// The value of a place.
pub fn read(place: Lval) -> Exp
    ensures { IsValue place result }
{
    value(place)
}

/// A kept place, named once more.
#[tactic(auto, using(crate::proofs::CodeLaws::names_local, crate::proofs::CodeLaws::names_global, crate::proofs::CodeLaws::names_behind))]
pub fn named(alloc: Global, kept: Kept) -> Result<Lval, Memory>
    ensures { IfOk result (Names kept) }
{
    match kept {
        Kept::Global(n) => Ok(whole(alloc, Host::Global(n))),
        Kept::Local(n) => Ok(variable(alloc, n)),
        Kept::Behind(n) => {
            let pointer = boxed(alloc, value_of(alloc, n))?;
            Ok(whole(alloc, at(pointer)))
        }
    }
}

/// The value of a local.
#[tactic(auto, using(crate::proofs::CodeLaws::reads_from))]
pub fn value_of(alloc: Global, n: LocalId) -> Exp
    ensures { Reads n result }
{
    read(variable(alloc, n))
}

/// Stores a value in a place.
#[tactic(auto, using(crate::proofs::CodeLaws::extends_one))]
pub fn store(place: Lval, x: Exp, out: &mut Vec<Stmt>) -> Result<(), Memory>
    ensures stores { OnOk result (out.new.items ≡ out.old.items ++ stmt.Instr (instr.Set place x) ∷ []) }
    ensures grows { OnOk result (Extends out.old.items out.new.items) }
{
    out.reserve(1)?;
    out.push_reserved(Stmt::Instr(Instr::Set(place, x)));
    Ok(())
}

/// Stores a value in a new temporary of a type.
#[tactic(auto, using(crate::proofs::CodeLaws::saves_in))]
pub fn saved(f: &mut FunctionOut, x: Exp, t: TypeId, out: &mut Vec<Stmt>) -> Result<LocalId, Memory>
    ensures saves { IfOk result (λ n. Saves n x out.old.items out.new.items) }
    ensures grows { OnOk result (Extends out.old.items out.new.items) }
{
    let n = f.add_unnamed(t)?;
    store(variable(f.alloc, n), x, out)?;
    Ok(n)
}

/// The variable that a place is, if it is a whole variable.
#[tactic(auto, using(crate::proofs::CodeLaws::whole_local, crate::proofs::CodeLaws::whole_global, crate::proofs::CodeLaws::no_variable_far, crate::proofs::CodeLaws::no_variable_behind))]
fn plain(place: &Lval) -> Option<Kept>
    ensures { MatchOption result ((nodes : List Node) → is_variable (lval_of nodes place.now) ≡ false) (λ kept. IsWhole kept place.now) }
{
    if !place.offsets.is_empty() {
        return None;
    }
    match &place.host {
        Host::Global(n) => Some(Kept::Global(*n)),
        Host::Var(n) => Some(Kept::Local(*n)),
        Host::At(_) => None,
    }
}

/// The pointer to what an lvalue begins with: that to what a pointer points to is the pointer.
#[tactic(auto, using(crate::proofs::CodeLaws::host_pointer, crate::proofs::CodeLaws::host_global, crate::proofs::CodeLaws::host_local))]
fn address_of_host(alloc: Global, host: Host) -> Exp
    ensures { IsHostAddress host result }
{
    match host {
        Host::At(pointer) => Box::into_inner(pointer),
        Host::Global(n) => address(whole(alloc, Host::Global(n))),
        Host::Var(n) => address(variable(alloc, n)),
    }
}

/// The pointer to a part of what an lvalue begins with.
#[tactic(auto, using(crate::proofs::CodeLaws::address_far))]
fn address_of_part(place: Lval) -> Exp
    requires { 0 < length place.offsets.items }
    ensures { IsAddressOf place result }
{
    address(place)
}

/// The pointer to a place or a function (C11 6.5.3.2p3).
#[tactic(auto, using(crate::proofs::CodeLaws::address_near))]
pub fn address_of(alloc: Global, place: Lval) -> Exp
    ensures { IsAddressOf place result }
{
    if !place.offsets.is_empty() {
        return address_of_part(place);
    }
    let Lval {
        host,
        offsets: _none,
    } = place;
    address_of_host(alloc, host)
}

/// Keeps a place of a type: a whole variable is named again, of any other the address goes into a temporary.
#[tactic(auto, using(crate::proofs::CodeLaws::keeps_whole, crate::proofs::CodeLaws::keeps_behind, crate::proofs::CodeLaws::extends_none))]
pub fn keep(
    f: &mut FunctionOut,
    place: Lval,
    t: TypeId,
    out: &mut Vec<Stmt>,
) -> Result<Kept, Memory>
    ensures keeps { IfOk result (λ kept. Keeps kept place out.old.items out.new.items) }
    ensures grows { OnOk result (Extends out.old.items out.new.items) }
{
    match plain(&place) {
        Some(kept) => Ok(kept),
        None => {
            let t = pointer_to(&mut f.unit.graph, t)?;
            let pointer = address_of(f.alloc, place);
            Ok(Kept::Behind(saved(f, pointer, t, out)?))
        }
    }
}

/// The place of a left part, kept where a part behind it in the same node has an effect.
#[tactic(auto, using(crate::proofs::CodeLaws::place_stays, crate::proofs::CodeLaws::place_kept, crate::proofs::CodeLaws::extends_none))]
pub fn left_place(
    f: &mut FunctionOut,
    e: &TypedExp,
    place: Lval,
    later: &TypedExp,
    out: &mut Vec<Stmt>,
) -> Result<Lval, Memory>
    ensures left { IfOk result (IsLeftPlace later.now.effect place out.old.items out.new.items) }
    ensures grows { OnOk result (Extends out.old.items out.new.items) }
{
    if !later.has_effect() {
        return Ok(place);
    }
    let t = f.type_of(e)?;
    let kept = keep(f, place, t, out)?;
    named(f.alloc, kept)
}

/// The value of a left operand, saved where an operand behind it in the same node has an effect.
#[tactic(auto, using(crate::proofs::CodeLaws::left_stays, crate::proofs::CodeLaws::left_saved, crate::proofs::CodeLaws::extends_none))]
pub fn left_value(
    f: &mut FunctionOut,
    e: &TypedExp,
    x: Box<Exp>,
    behind: &TypedExp,
    out: &mut Vec<Stmt>,
) -> Result<Box<Exp>, Memory>
    ensures left { IfOk result (λ y. IsLeft behind.now.effect x.value out.old.items out.new.items y.value) }
    ensures grows { OnOk result (Extends out.old.items out.new.items) }
{
    if !behind.has_effect() {
        return Ok(x);
    }
    let t = f.type_of(e)?;
    let n = saved(f, Box::into_inner(x), t, out)?;
    boxed(f.alloc, value_of(f.alloc, n))
}

/// What a pointer of either sort, array or function, decays to (C11 6.3.2.1p3, p4), from the place of what decays.
pub fn decayed(f: &FunctionOut, e: &TypedExp, place: Lval) -> Result<Exp, Memory> {
    let t = f.type_of(e)?;
    if is_function(&f.unit.graph, t) {
        Ok(address_of(f.alloc, place))
    } else {
        Ok(start(place))
    }
}

/// What a sum of a pointer and an integer points to (C11 6.5.2.1p2).
pub fn element_at(alloc: Global, left: Box<Exp>, right: Box<Exp>) -> Result<Lval, Memory> {
    let sum = boxed(alloc, binary(BinOp::Add, left, right))?;
    Ok(whole(alloc, at(sum)))
}

/// An element of an array that has a place.
pub fn element(place: Lval, index: Box<Exp>) -> Result<Lval, Memory>
    ensures { IfOk result (IsElement place index.value) }
{
    let mut place = place;
    add_element(&mut place, index)?;
    Ok(place)
}

/// A member of a struct or union that has a place.
pub fn member(place: Lval, i: u32) -> Result<Lval, Memory>
    ensures { IfOk result (IsField place i) }
{
    let mut place = place;
    add_field(&mut place, i)?;
    Ok(place)
}

/// Whether the value of an expression stands where it was stored or found: that of an assignment or of a comma.
fn is_found(e: &TypedExp) -> bool
    ensures { result ≡ is_found e.now.node.value }
{
    match e.node() {
        TypedNode::Assign(..) | TypedNode::Comma(..) => true,
        TypedNode::Integer(_)
        | TypedNode::Local(_)
        | TypedNode::Literal(..)
        | TypedNode::Entity(_)
        | TypedNode::Load(_)
        | TypedNode::Decay(_)
        | TypedNode::Address(_)
        | TypedNode::Indirect(_)
        | TypedNode::Subscript(..)
        | TypedNode::Member(..)
        | TypedNode::Convert(_)
        | TypedNode::Unary(..)
        | TypedNode::Binary(..)
        | TypedNode::Logical(..)
        | TypedNode::Conditional(..)
        | TypedNode::Compute(..)
        | TypedNode::Step(..)
        | TypedNode::Call(..) => false,
    }
}

/// Whether an expression is the value of a whole variable.
#[tactic(auto, using(crate::proofs::CodeLaws::value_whole, crate::proofs::CodeLaws::value_far, crate::proofs::CodeLaws::address_apart, crate::proofs::CodeLaws::start_apart))]
fn is_variable_value(x: &Exp) -> bool
    ensures { (nodes : List Node) → is_variable_value (exp_of nodes x.now) ≡ result }
{
    match x {
        Exp::Lval(place) => match plain(place) {
            Some(_) => true,
            None => false,
        },
        Exp::Const(..)
        | Exp::Un(..)
        | Exp::Bin(..)
        | Exp::Cast(..)
        | Exp::AddrOf(_)
        | Exp::StartOf(_) => false,
    }
}

/// The value of a struct or union of which a member is read. What was stored or found is saved, but for a whole variable: it may stand where no
/// scalar in it is aligned.
#[tactic(auto, using(crate::proofs::CodeLaws::held_apart, crate::proofs::CodeLaws::held_whole, crate::proofs::CodeLaws::held_saved, crate::proofs::CodeLaws::extends_none))]
pub fn held(f: &mut FunctionOut, e: &TypedExp, x: Exp, out: &mut Vec<Stmt>) -> Result<Exp, Memory>
    ensures held { IfOk result (IsHeld e.now x out.old.items out.new.items) }
    ensures grows { OnOk result (Extends out.old.items out.new.items) }
{
    if !is_found(e) {
        return Ok(x);
    }
    if is_variable_value(&x) {
        return Ok(x);
    }
    let t = f.type_of(e)?;
    let n = saved(f, x, t, out)?;
    Ok(value_of(f.alloc, n))
}

/// A member of the value of a struct or union, which stands somewhere.
pub fn member_of_value(x: Exp, i: u32) -> Result<Exp, Memory>
    ensures { IfOk result (IsMemberOf x i) }
{
    match x {
        Exp::Lval(place) => {
            let place = member(place, i)?;
            Ok(read(place))
        }
        Exp::Const(..)
        | Exp::Un(..)
        | Exp::Bin(..)
        | Exp::Cast(..)
        | Exp::AddrOf(_)
        | Exp::StartOf(_) => Err(impossible()),
    }
}

/// Whether what an expression is stands in an object: it is a place, or a member of what is.
pub fn is_part(e: &TypedExp) -> bool {
    match e.node() {
        TypedNode::Member(..) => true,
        _ => e.is_place(),
    }
}

/// Puts a step behind those of a place.
fn put_offset(place: &mut Lval, step: Offset) -> Result<(), Memory>
    ensures host { OnOk result (place.new.host ≡ place.old.host) }
    ensures offsets { OnOk result (place.new.offsets.items ≡ place.old.offsets.items ++ step ∷ []) }
{
    place.offsets.reserve(1)?;
    place.offsets.push_reserved(step);
    Ok(())
}

/// Steps from a place into a part of it.
#[tactic(auto, using(crate::proofs::CodeLaws::field_put, crate::proofs::CodeLaws::element_put))]
fn step_into(alloc: Global, place: &mut Lval, step: Step) -> Result<(), Memory>
    ensures { OnOk result (IsStep place.old step place.new) }
{
    match step {
        Step::Field(i) => put_offset(place, Offset::Field(i)),
        Step::Index(i) => {
            let index = boxed(alloc, constant(IntKind::Int, i))?;
            put_offset(place, Offset::Index(index))
        }
    }
}

/// The place of a local, with room for so many steps.
fn variable_with_room(alloc: Global, n: LocalId, steps: usize) -> Result<Lval, Memory>
    ensures { IfOk result (IsVariable n) }
{
    Ok(Lval {
        host: Host::Var(n),
        offsets: Vec::with_capacity(alloc, steps)?,
    })
}

/// The part of a local to which a path leads.
#[tactic(auto, using(crate::proofs::CodeLaws::begins, crate::proofs::CodeLaws::steps, crate::proofs::CodeLaws::arrives))]
pub fn part(alloc: Global, n: LocalId, path: &[Step]) -> Result<Lval, Memory>
    ensures { IfOk result (IsPart n path.now) }
{
    let mut place = variable_with_room(alloc, n, path.len())?;
    for step in path {
        step_into(alloc, &mut place, *step)?;
    }
    Ok(place)
}

/// Stores a value in the part of a local to which a path leads.
#[tactic(auto, using(crate::proofs::CodeLaws::stores_part))]
pub fn store_part(
    alloc: Global,
    n: LocalId,
    path: &[Step],
    x: Exp,
    out: &mut Vec<Stmt>,
) -> Result<(), Memory>
    ensures stores { OnOk result (StoresPart n path.now x out.old.items out.new.items) }
    ensures grows { OnOk result (Extends out.old.items out.new.items) }
{
    let place = part(alloc, n, path)?;
    store(place, x, out)
}

/// Makes each byte of a place zero.
#[tactic(auto, using(crate::proofs::CodeLaws::extends_one))]
fn fill(place: Lval, out: &mut Vec<Stmt>) -> Result<(), Memory>
    ensures fills { OnOk result (out.new.items ≡ out.old.items ++ stmt.Instr (instr.Zero place) ∷ []) }
    ensures grows { OnOk result (Extends out.old.items out.new.items) }
{
    out.reserve(1)?;
    out.push_reserved(Stmt::Instr(zero(place)));
    Ok(())
}

/// Makes the part of a local zero to which a path leads (C11 6.7.9p19).
#[tactic(auto, using(crate::proofs::CodeLaws::clears_part))]
pub fn clear(alloc: Global, n: LocalId, path: &[Step], out: &mut Vec<Stmt>) -> Result<(), Memory>
    ensures clears { OnOk result (Clears n path.now out.old.items out.new.items) }
    ensures grows { OnOk result (Extends out.old.items out.new.items) }
{
    let place = part(alloc, n, path)?;
    fill(place, out)
}

/// The type of the part of a local to which a path leads.
pub fn part_type(f: &FunctionOut, n: LocalId, path: &Path) -> Result<TypeId, Memory> {
    let mut t = f.local_type(n)?;
    for step in path.as_slice() {
        let next = match step {
            Step::Field(i) => member_of(&f.unit.graph, t, *i),
            Step::Index(_) => element_of(&f.unit.graph, t),
        };
        match next {
            Some(next) => t = next,
            None => return Err(impossible()),
        }
    }
    Ok(t)
}
