ghost use Rattle.std.specs.Prelude.{◌≡◌, ◌<◌, IfOk, IfSome, Some, None, length, false};
ghost use Rattle.type_graph.specs.Shapes.{Shape, shape};
ghost use Rattle.layout_lp64.specs.Tables.{InStep};
ghost use Rattle.cil_tree.specs.Tree as plain;
ghost use Rattle.cil_tree.specs.View.{exp_of};
ghost use Rattle.cil_tree.specs.Typing.{place_type, read_type};
ghost use Rattle.cil_check.specs.Seen.{seen_scope, IsThere, told};
ghost use Rattle.cil_semantics.specs.Values.{scalar_in};
ghost use Rattle.cil_machine.specs.Resolution.{MeansPlace};
ghost use Rattle.cil_machine.specs.Typed.{IsTyped, IsPlaced};
ghost use Rattle.cil_code.specs.Passing.{IsOperand, is_read};

use byte_mem::Scalar;
use cil_base::{Memory, TypeId};
use cil_check::{Seen, read};
use cil_machine::{
    Setting, Spot, Term, Typed, TypedSpot, resolve, resolve_place, scalar_of, size_of,
};
use cil_tree::Exp;

/// A resolved expression, where its value is assigned, returned or passed.
#[derive(Drop)]
pub enum Operand {
    /// A value of the scalar.
    Single(Scalar, Term),
    /// The bytes of a struct or union of that size, which stands at a place (C11 6.3.2.1p2).
    Bytes(u32, Spot),
    /// Undefined: what has no type, or is void.
    Wrong,
}

/// The value of an expression that reads no place.
#[tactic(auto, using(crate::proofs::OperandLaws::computed_scalar, crate::proofs::OperandLaws::computed_other, crate::proofs::OperandLaws::computed_nothing))]
fn computed(s: &Setting, r: Typed) -> Operand
    requires { IfSome r.ty (IsThere s.now.scope.unit.now.graph) }
    ensures { (x : plain.Exp) → IsTyped (seen_scope s.now.scope) s.now.entities.now x r → is_read x ≡ false → IsOperand (seen_scope s.now.scope) s.now.entities.now x result }
{
    match r.ty {
        None => Operand::Wrong,
        Some(t) => match scalar_of(&s.scope.unit.graph, t) {
            Some(of) => Operand::Single(of, r.term),
            None => Operand::Wrong,
        },
    }
}

/// The value of what stands at a place of a type, which is seen like that where it can be read.
#[tactic(auto, using(crate::proofs::OperandLaws::place_scalar, crate::proofs::OperandLaws::place_unread))]
fn read_typed(s: &Setting, at: Spot, t: TypeId, seen: Option<Seen>) -> Operand
    requires step { InStep s.now.layouts.now s.now.scope.unit.now.graph }
    requires there { t.0 < length s.now.scope.unit.now.graph.nodes }
    requires seen { IfSome seen (IsThere s.now.scope.unit.now.graph) }
    ensures { (p : plain.Lval) → place_type (seen_scope s.now.scope) p ≡ Some (shape s.now.scope.unit.now.graph.nodes t.0) → MeansPlace (seen_scope s.now.scope) s.now.entities.now p at
        → told s.now.scope.unit.now.graph seen ≡ read_type (seen_scope s.now.scope) (shape s.now.scope.unit.now.graph.nodes t.0) → IsOperand (seen_scope s.now.scope) s.now.entities.now (plain.Value p) result }
{
    match seen {
        None => Operand::Wrong,
        Some(r) => match scalar_of(&s.scope.unit.graph, r) {
            Some(of) => Operand::Single(of, Term::Load(at)),
            None => bytes(s, at, t),
        },
    }
}

/// The bytes of what stands at a place of a type.
#[tactic(auto, using(crate::proofs::OperandLaws::place_bytes, crate::proofs::OperandLaws::place_sizeless))]
fn bytes(s: &Setting, at: Spot, t: TypeId) -> Operand
    requires step { InStep s.now.layouts.now s.now.scope.unit.now.graph }
    requires there { t.0 < length s.now.scope.unit.now.graph.nodes }
    ensures { (p : plain.Lval) (u : Shape) → place_type (seen_scope s.now.scope) p ≡ Some (shape s.now.scope.unit.now.graph.nodes t.0) → MeansPlace (seen_scope s.now.scope) s.now.entities.now p at
        → read_type (seen_scope s.now.scope) (shape s.now.scope.unit.now.graph.nodes t.0) ≡ Some u → scalar_in s.now.scope.unit.now.graph u ≡ None → IsOperand (seen_scope s.now.scope) s.now.entities.now (plain.Value p) result }
{
    match size_of(s, t) {
        Some(size) => Operand::Bytes(size, at),
        None => Operand::Wrong,
    }
}

/// The value of what stands at a place.
#[tactic(auto, using(crate::proofs::OperandLaws::place_nothing))]
fn at_place(s: &Setting, at: TypedSpot) -> Operand
    requires step { InStep s.now.layouts.now s.now.scope.unit.now.graph }
    requires there { IfSome at.ty (λ t. t.0 < length s.now.scope.unit.now.graph.nodes) }
    ensures { (p : plain.Lval) → IsPlaced (seen_scope s.now.scope) s.now.entities.now p at → IsOperand (seen_scope s.now.scope) s.now.entities.now (plain.Value p) result }
{
    match at.ty {
        None => Operand::Wrong,
        Some(t) => read_typed(s, at.spot, t, read(&s.scope.unit.graph, t)),
    }
}

/// A resolved expression, where its value is assigned, returned or passed. It gives what the expression means, in each
/// memory and activation, where that has a type that is not void. Memory comes only for want of memory.
#[tactic(auto, using(cil_tree::proofs::Views::at_value))]
pub fn resolve_operand(s: &Setting, e: &Exp) -> Result<Operand, Memory>
    requires { InStep s.now.layouts.now s.now.scope.unit.now.graph }
    ensures { IfOk result (IsOperand (seen_scope s.now.scope) s.now.entities.now (exp_of s.now.scope.unit.now.graph.nodes e.now)) }
{
    match e {
        Exp::Lval(place) => Ok(at_place(s, resolve_place(s, place)?)),
        Exp::Const(..)
        | Exp::Un(..)
        | Exp::Bin(..)
        | Exp::Cast(..)
        | Exp::AddrOf(_)
        | Exp::StartOf(_) => { Ok(computed(s, resolve(s, e)?)) }
    }
}
