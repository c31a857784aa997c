ghost use Rattle.std.specs.Prelude.{◌≡◌, ◌<◌, IfOk, IfSome, length, map};
ghost use Rattle.std.specs.Option.{option_map, option_and_then};
ghost use Rattle.type_graph.specs.Shapes.{AggType, shape};
ghost use Rattle.layout_lp64.specs.Tables.{InStep};
ghost use Rattle.cil_tree.specs.Tree as plain;
ghost use Rattle.cil_tree.specs.View.{exp_of, lval_of, callee_of};
ghost use Rattle.cil_check.specs.Seen.{seen_scope, IsThere, at};
ghost use Rattle.cil_semantics.specs.Values.{kind_in};
ghost use Rattle.cil_semantics.specs.Statements.{result_type};
ghost use Rattle.cil_machine.specs.Typed.{IsTyped, IsPlaced};
ghost use Rattle.cil_code.specs.Calling.{kind_of, IsReceived, IsReceiver, AreOperands, IsCallee, IsCall};

use crate::operands::{Operand, resolve_operand};
use byte_mem::Scalar;
use cil_base::{AggId, EntityId, IntKind, Memory, TypeId};
use cil_check::{global_type, names_enum};
use cil_machine::{
    Setting, Spot, Term, Typed, TypedSpot, pointed_type, resolve, resolve_place, size_of,
};
use cil_tree::{Callee, Exp, Lval};
use type_graph::Node;

/// What calls compare of a type (own).
#[derive(Clone, Copy)]
pub enum Kind {
    /// No value (C11 6.2.5p19).
    Void,
    /// A value of the scalar.
    Single(Scalar),
    /// The size of a struct or union.
    Bytes(u32),
}

/// Where the result of a call goes.
#[derive(Drop)]
pub struct Receiver {
    /// The place.
    pub place: Spot,
    /// The kind of its type, if it has one.
    pub kind: Option<Kind>,
}

/// A call (C11 6.5.2.2).
#[derive(Drop)]
pub struct Call {
    /// Where the result goes, if it is stored.
    pub to: Option<Receiver>,
    /// What is called.
    pub callee: Term,
    /// The kind of the result that is asked for.
    pub result: Option<Kind>,
    /// What is passed (6.5.2.2p4).
    pub arguments: Vec<Operand>,
}

/// The kind of a struct, union or enum.
#[tactic(auto, using(crate::proofs::CallMeanings::enum_kind, crate::proofs::CallMeanings::sized_kind, crate::proofs::CallMeanings::sizeless_kind))]
fn aggregate_kind(s: &Setting, t: TypeId, a: AggId) -> Option<Kind>
    requires step { InStep s.now.layouts.now s.now.scope.unit.now.graph }
    requires there { t.0 < length s.now.scope.unit.now.graph.nodes }
    requires aggregate { shape s.now.scope.unit.now.graph.nodes t.0 ≡ AggType a.0 }
    ensures { option_map kind_of result ≡ kind_in s.now.scope.unit.now.graph (shape s.now.scope.unit.now.graph.nodes t.0) }
{
    if names_enum(&s.scope.unit.graph, a) {
        return Some(Kind::Single(Scalar::Int(IntKind::Int)));
    }
    match size_of(s, t) {
        Some(size) => Some(Kind::Bytes(size)),
        None => None,
    }
}

/// The kind of a type of the graph; functions, arrays and what is incomplete have none, but for void (own).
pub fn kind_at(s: &Setting, t: TypeId) -> Option<Kind>
    requires step { InStep s.now.layouts.now s.now.scope.unit.now.graph }
    requires there { t.0 < length s.now.scope.unit.now.graph.nodes }
    ensures { option_map kind_of result ≡ kind_in s.now.scope.unit.now.graph (shape s.now.scope.unit.now.graph.nodes t.0) }
{
    match s.scope.unit.graph.node(t) {
        Node::Void => Some(Kind::Void),
        Node::Int(kind) => Some(Kind::Single(Scalar::Int(*kind))),
        Node::Ptr(_) => Some(Kind::Single(Scalar::Ptr)),
        Node::Array(..) | Node::Func { .. } => None,
        Node::Agg(a) => aggregate_kind(s, t, *a),
    }
}

/// The kind of a type that may be missing.
fn kind_of_type(s: &Setting, t: Option<TypeId>) -> Option<Kind>
    requires step { InStep s.now.layouts.now s.now.scope.unit.now.graph }
    requires there { IfSome t (λ t. t.0 < length s.now.scope.unit.now.graph.nodes) }
    ensures { option_map kind_of result ≡ option_and_then (kind_in s.now.scope.unit.now.graph) (at s.now.scope.unit.now.graph t) }
{
    match t {
        None => None,
        Some(t) => kind_at(s, t),
    }
}

/// The type of what a function returns.
fn result_at(s: &Setting, t: TypeId) -> Option<TypeId>
    requires { t.0 < length s.now.scope.unit.now.graph.nodes }
    ensures told { at s.now.scope.unit.now.graph result ≡ result_type (shape s.now.scope.unit.now.graph.nodes t.0) }
    ensures there { IfSome result (λ t. t.0 < length s.now.scope.unit.now.graph.nodes) }
{
    match s.scope.unit.graph.node(t) {
        Node::Func { ret, .. } => Some(*ret),
        Node::Void | Node::Int(_) | Node::Ptr(_) | Node::Array(..) | Node::Agg(_) => None,
    }
}

/// The kind of what a function of a type returns.
fn result_kind(s: &Setting, t: Option<TypeId>) -> Option<Kind>
    requires step { InStep s.now.layouts.now s.now.scope.unit.now.graph }
    requires there { IfSome t (λ t. t.0 < length s.now.scope.unit.now.graph.nodes) }
    ensures { option_map kind_of result ≡ option_and_then (λ t. option_and_then (kind_in s.now.scope.unit.now.graph) (result_type t)) (at s.now.scope.unit.now.graph t) }
{
    match t {
        None => None,
        Some(t) => kind_of_type(s, result_at(s, t)),
    }
}

/// Where a result goes, whose place has this type.
#[tactic(auto, using(crate::proofs::CallMeanings::received))]
fn receiver_typed(s: &Setting, at: TypedSpot) -> Receiver
    requires step { InStep s.now.layouts.now s.now.scope.unit.now.graph }
    requires there { IfSome at.ty (λ t. t.0 < length s.now.scope.unit.now.graph.nodes) }
    ensures { (p : plain.Lval) → IsPlaced (seen_scope s.now.scope) s.now.entities.now p at → IsReceived (seen_scope s.now.scope) s.now.entities.now p result }
{
    let kind = kind_of_type(s, at.ty);
    Receiver {
        place: at.spot,
        kind,
    }
}

/// Where the result of a call goes, if it is stored.
fn resolve_receiver(s: &Setting, to: &Option<Lval>) -> Result<Option<Receiver>, Memory>
    requires { InStep s.now.layouts.now s.now.scope.unit.now.graph }
    ensures { IfOk result (IsReceiver (seen_scope s.now.scope) s.now.entities.now (option_map (lval_of s.now.scope.unit.now.graph.nodes) to.now)) }
{
    match to {
        None => Ok(None),
        Some(place) => Ok(Some(receiver_typed(s, resolve_place(s, place)?))),
    }
}

/// What is called: a pointer to a function, and the kind of its result by its type.
#[derive(Drop)]
pub struct Called {
    /// The pointer to it (C11 6.5.2.2p1).
    pub pointer: Term,
    /// The kind of the result, if its type has one.
    pub result: Option<Kind>,
}

/// A function of the program.
#[tactic(auto, using(crate::proofs::CallMeanings::direct_known, crate::proofs::CallMeanings::direct_unknown))]
fn direct(s: &Setting, n: EntityId) -> Called
    requires { InStep s.now.layouts.now s.now.scope.unit.now.graph }
    ensures { IsCallee (seen_scope s.now.scope) s.now.entities.now (plain.Direct n.0) result }
{
    let result = result_kind(s, global_type(&s.scope, n));
    match s.entities.get(n.0 as usize) {
        Some(e) => Called {
            pointer: Term::Address(Spot::Entity(EntityId(*e))),
            result,
        },
        None => Called {
            pointer: Term::Wrong,
            result,
        },
    }
}

/// The function that a pointer points to.
#[tactic(auto, using(crate::proofs::CallMeanings::through))]
fn through(s: &Setting, r: Typed) -> Called
    requires step { InStep s.now.layouts.now s.now.scope.unit.now.graph }
    requires there { IfSome r.ty (IsThere s.now.scope.unit.now.graph) }
    ensures { (x : plain.Exp) → IsTyped (seen_scope s.now.scope) s.now.entities.now x r → IsCallee (seen_scope s.now.scope) s.now.entities.now (plain.Through x) result }
{
    let result = result_kind(s, pointed_type(s, r.ty));
    Called {
        pointer: r.term,
        result,
    }
}

/// What is called.
fn resolve_callee(s: &Setting, f: &Callee) -> Result<Called, Memory>
    requires { InStep s.now.layouts.now s.now.scope.unit.now.graph }
    ensures { IfOk result (IsCallee (seen_scope s.now.scope) s.now.entities.now (callee_of s.now.scope.unit.now.graph.nodes f.now)) }
{
    match f {
        Callee::Direct(n) => Ok(direct(s, *n)),
        Callee::Through(e) => Ok(through(s, resolve(s, e)?)),
    }
}

/// The arguments of a call, from the left.
#[tactic(auto, using(crate::proofs::CallMeanings::operands_next, crate::proofs::CallMeanings::operands_all))]
fn passed(s: &Setting, es: &[Exp]) -> Result<Vec<Operand>, Memory>
    requires { InStep s.now.layouts.now s.now.scope.unit.now.graph }
    ensures { IfOk result (λ v. AreOperands (seen_scope s.now.scope) s.now.entities.now (map (exp_of s.now.scope.unit.now.graph.nodes) es.now) v.items) }
{
    let mut done = Vec::new(s.alloc);
    for i in 0..es.len() {
        done.push(resolve_operand(s, &es[i])?)?;
    }
    Ok(done)
}

/// A resolved call. Memory comes only for want of memory.
pub fn resolve_call(
    s: &Setting,
    to: &Option<Lval>,
    f: &Callee,
    arguments: &[Exp],
) -> Result<Call, Memory>
    requires { InStep s.now.layouts.now s.now.scope.unit.now.graph }
    ensures { IfOk result (IsCall (seen_scope s.now.scope) s.now.entities.now (option_map (lval_of s.now.scope.unit.now.graph.nodes) to.now) (callee_of s.now.scope.unit.now.graph.nodes f.now) (map (exp_of s.now.scope.unit.now.graph.nodes) arguments.now)) }
{
    let to = resolve_receiver(s, to)?;
    let f = resolve_callee(s, f)?;
    let arguments = passed(s, arguments)?;
    Ok(Call {
        to,
        callee: f.pointer,
        result: f.result,
        arguments,
    })
}
