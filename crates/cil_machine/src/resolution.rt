ghost use Rattle.std.specs.Prelude.{◌≡◌, ◌<◌, ℕ, Some, None, IfOk, IfSome, length, false, true, is_some, List, ◌∷◌};
ghost use Rattle.type_graph.specs.Shapes.{Shape, IntType, shape};
ghost use Rattle.type_graph.specs.Arena.{complete_shape};
ghost use Rattle.layout_lp64.specs.Tables.{InStep};
ghost use Rattle.cil_tree.specs.Tree as plain;
ghost use Rattle.cil_tree.specs.Typing.{type_of, place_type, is_comparison, member_type, element_type, pointed};
ghost use Rattle.cil_tree.specs.Globals.{aggregate_of};
ghost use Rattle.type_graph.specs.Layouts.{offset};
ghost use Rattle.std.specs.Option.{option_and_then};
ghost use Rattle.cil_tree.specs.View.{type_at, exp_of, host_of, lval_of, offsets_of};
ghost use Rattle.cil_tree.specs.declared.expressions.Offset.{Offset};
ghost use Rattle.cil_check.specs.Seen.{seen_scope, seen_shape, IsThere, told, at};
ghost use Rattle.cil_semantics.specs.Values.{scalar_in, size_in};
ghost use Rattle.cil_machine.specs.Typed.{IsTyped, IsPlaced, IsHosted, IsClass, IsOnWay};
ghost use Rattle.cil_machine.specs.Resolution.{Means, IsPart};

use crate::terms::{Spot, Term};
use byte_mem::Scalar;
use cil_base::{BinOp, EntityId, IntKind, LocalId, Memory, TypeId, UnOp};
use cil_check::{
    Scope, Seen, binary, cast, constant, element, global_type, is_scalar, local_type, member,
    pointed, read, type_at, unary,
};
use cil_tree::{Exp, Host, Lval, Offset};
use layout_lp64::Layouts;
use std::alloc::Global;
use type_graph::{Node, QualType, TypeGraph};

/// What a function's expressions are resolved by.
#[derive(Clone, Copy)]
pub struct Setting<'a> {
    /// Where the terms' memory comes from.
    pub alloc: Global,
    /// What the function's body sees: its program, the names and the body.
    pub scope: Scope<'a>,
    /// The layouts of the program's types.
    pub layouts: &'a Layouts,
    /// The run's number of each global.
    pub entities: &'a [u32],
}

/// A resolved expression, with its type if it has one.
#[derive(Drop)]
pub struct Typed {
    /// What gives its value.
    pub term: Term,
    /// Its type, if it has one.
    pub ty: Option<Seen>,
}

/// A resolved place, with its type if it has one.
#[derive(Drop)]
pub struct TypedSpot {
    /// What gives its address.
    pub spot: Spot,
    /// Its type, if it has one.
    pub ty: Option<TypeId>,
}

/// What has no type.
#[tactic(auto, using(crate::proofs::Meanings::means_nothing))]
fn untyped(s: &Setting) -> Typed
    ensures { (e : plain.Exp) → type_of (seen_scope s.now.scope) e ≡ None → IsTyped (seen_scope s.now.scope) s.now.entities.now e result }
{
    let _count = s.entities.len();
    Typed {
        term: Term::Wrong,
        ty: None,
    }
}

/// The scalar of a type (C11 6.2.5p21), none of one that is not scalar.
pub fn scalar_of(g: &TypeGraph, t: Seen) -> Option<Scalar>
    requires { IsThere g.now t }
    ensures { result ≡ scalar_in g.now (seen_shape g.now t) }
{
    match t {
        Seen::Int(kind) => Some(Scalar::Int(kind)),
        Seen::Ptr(_) => Some(Scalar::Ptr),
        Seen::Other(_) => {
            if is_scalar(g, t) {
                Some(Scalar::Int(IntKind::Int))
            } else {
                None
            }
        }
    }
}

/// A constant.
#[tactic(auto, using(crate::proofs::Meanings::means_number))]
fn number(s: &Setting, kind: IntKind, n: u64) -> Typed
    ensures { IsTyped (seen_scope s.now.scope) s.now.entities.now (plain.Const kind n) result }
{
    Typed {
        term: Term::Number(n),
        ty: constant(&s.scope.unit.graph, kind, n),
    }
}

/// The value of a place.
#[tactic(auto, using(crate::proofs::Meanings::means_value))]
fn load(s: &Setting, place: TypedSpot) -> Typed
    requires { IfSome place.ty (λ t. t.0 < length s.now.scope.unit.now.graph.nodes) }
    ensures { (p : plain.Lval) → IsPlaced (seen_scope s.now.scope) s.now.entities.now p place → IsTyped (seen_scope s.now.scope) s.now.entities.now (plain.Value p) result }
{
    match place.ty {
        None => untyped(s),
        Some(t) => Typed {
            term: Term::Load(place.spot),
            ty: read(&s.scope.unit.graph, t),
        },
    }
}

/// `!`, whose operand is scalar.
#[tactic(auto, using(crate::proofs::Meanings::means_not))]
fn not(s: &Setting, of: Scalar, e: Term) -> Result<Term, Memory>
    ensures { (x : plain.Exp) (t : Shape) → type_of (seen_scope s.now.scope) x ≡ Some t → scalar_in (seen_scope s.now.scope).program.graph t ≡ Some of
        → Means (seen_scope s.now.scope) s.now.entities.now x e → IfOk result (Means (seen_scope s.now.scope) s.now.entities.now (plain.Un UnOp.Not x)) }
{
    Ok(Term::Not(of, Box::new(s.alloc, e)?))
}

/// The address of a place.
fn address(s: &Setting, place: TypedSpot) -> Typed
    requires { IfSome place.ty (λ t. t.0 < length s.now.scope.unit.now.graph.nodes) }
    ensures { (p : plain.Lval) → IsPlaced (seen_scope s.now.scope) s.now.entities.now p place → IsTyped (seen_scope s.now.scope) s.now.entities.now (plain.AddrOf p) result }
{
    match place.ty {
        None => untyped(s),
        Some(t) => Typed {
            term: Term::Address(place.spot),
            ty: cil_check::address(&s.scope.unit.graph, t),
        },
    }
}

/// The address of an array's first element.
fn start(s: &Setting, place: TypedSpot) -> Typed
    requires { IfSome place.ty (λ t. t.0 < length s.now.scope.unit.now.graph.nodes) }
    ensures { (p : plain.Lval) → IsPlaced (seen_scope s.now.scope) s.now.entities.now p place → IsTyped (seen_scope s.now.scope) s.now.entities.now (plain.StartOf p) result }
{
    match place.ty {
        None => untyped(s),
        Some(t) => Typed {
            term: Term::Address(place.spot),
            ty: cil_check::start(&s.scope.unit.graph, t),
        },
    }
}

/// A unary operator, whose operand has this type.
#[tactic(auto, using(crate::proofs::Typings::means_neg, crate::proofs::Typings::means_compl, crate::proofs::Typings::means_not_nothing))]
fn unary_term(s: &Setting, op: UnOp, t: Seen, e: Term) -> Result<Term, Memory>
    requires { IsThere s.now.scope.unit.now.graph t }
    ensures { (x : plain.Exp) → type_of (seen_scope s.now.scope) x ≡ Some (seen_shape s.now.scope.unit.now.graph t)
        → Means (seen_scope s.now.scope) s.now.entities.now x e → IfOk result (Means (seen_scope s.now.scope) s.now.entities.now (plain.Un op x)) }
{
    match op {
        UnOp::Neg => Ok(Term::Unary(UnOp::Neg, Box::new(s.alloc, e)?)),
        UnOp::Compl => Ok(Term::Unary(UnOp::Compl, Box::new(s.alloc, e)?)),
        UnOp::Not => match scalar_of(&s.scope.unit.graph, t) {
            Some(of) => not(s, of, e),
            None => Ok(Term::Wrong),
        },
    }
}

/// A unary operator.
fn unary_typed(s: &Setting, op: UnOp, e: Typed) -> Result<Typed, Memory>
    requires { IfSome e.ty (IsThere s.now.scope.unit.now.graph) }
    ensures { (x : plain.Exp) → IsTyped (seen_scope s.now.scope) s.now.entities.now x e → IfOk result (IsTyped (seen_scope s.now.scope) s.now.entities.now (plain.Un op x)) }
{
    match e.ty {
        None => Ok(untyped(s)),
        Some(t) => {
            let term = unary_term(s, op, t, e.term)?;
            let ty = unary(&s.scope.unit.graph, op, t);
            Ok(Typed { term, ty })
        }
    }
}

/// The class of an operator over integers.
#[derive(Clone, Copy)]
enum Class {
    /// Its operands and its result are of one kind.
    Arithmetic,
    /// A shift, to the left or else to the right: its right operand has a kind of its own.
    Shift(bool),
    /// A comparison, whose result is an int.
    Comparison,
}

/// The class of an operator over integers.
fn class_of(op: BinOp) -> Class
    ensures { IsClass op result }
{
    match op {
        BinOp::Shl => Class::Shift(true),
        BinOp::Shr => Class::Shift(false),
        BinOp::Lt | BinOp::Gt | BinOp::Le | BinOp::Ge | BinOp::Eq | BinOp::Ne => Class::Comparison,
        BinOp::Mul
        | BinOp::Div
        | BinOp::Rem
        | BinOp::Add
        | BinOp::Sub
        | BinOp::And
        | BinOp::Xor
        | BinOp::Or => Class::Arithmetic,
    }
}

/// The size of a type of the graph, none of an incomplete one (C11 6.5.3.4).
#[tactic(auto, using(crate::proofs::Sizes::size_found, crate::proofs::Sizes::no_size, crate::proofs::Sizes::size_there))]
pub fn size_of(s: &Setting, t: TypeId) -> Option<u32>
    requires step { InStep s.now.layouts.now s.now.scope.unit.now.graph }
    requires there { t.0 < length s.now.scope.unit.now.graph.nodes }
    ensures size { result ≡ size_in s.now.scope.unit.now.graph (shape s.now.scope.unit.now.graph.nodes t.0) }
    ensures complete { result ≡ None → complete_shape s.now.scope.unit.now.graph.aggs (shape s.now.scope.unit.now.graph.nodes t.0) ≡ false }
{
    // What is known of an arena is known where it is read.
    let _types = s.scope.unit.graph.len();
    if s.scope.unit.graph.is_complete(t) {
        Some(s.layouts.size(t))
    } else {
        None
    }
}

/// An operator over integers of these kinds.
fn integers(s: &Setting, op: BinOp, k: IntKind, l: IntKind, e: Box<Term>, f: Box<Term>) -> Term
    ensures { (x y : plain.Exp) → type_of (seen_scope s.now.scope) x ≡ Some (IntType k) → type_of (seen_scope s.now.scope) y ≡ Some (IntType l)
        → Means (seen_scope s.now.scope) s.now.entities.now x e.value → Means (seen_scope s.now.scope) s.now.entities.now y f.value
        → Means (seen_scope s.now.scope) s.now.entities.now (plain.Bin op x y) result }
{
    let _globals = s.entities.len();
    match class_of(op) {
        Class::Arithmetic => Term::Arithmetic(op, e, f),
        Class::Shift(left) => Term::Shift(left, l, e, f),
        Class::Comparison => Term::Compare(op, k, e, f),
    }
}

/// An operator over a pointer and an integer.
fn forward(s: &Setting, op: BinOp, q: QualType, l: IntKind, e: Box<Term>, f: Box<Term>) -> Term
    requires step { InStep s.now.layouts.now s.now.scope.unit.now.graph }
    requires there { q.of.0 < length s.now.scope.unit.now.graph.nodes }
    ensures { (x y : plain.Exp) → type_of (seen_scope s.now.scope) x ≡ Some (seen_shape s.now.scope.unit.now.graph (Seen.Ptr q)) → type_of (seen_scope s.now.scope) y ≡ Some (IntType l)
        → Means (seen_scope s.now.scope) s.now.entities.now x e.value → Means (seen_scope s.now.scope) s.now.entities.now y f.value
        → Means (seen_scope s.now.scope) s.now.entities.now (plain.Bin op x y) result }
{
    let size = size_of(s, q.of);
    match (op, size) {
        (BinOp::Add, Some(size)) => Term::Sum(size, l, e, f),
        (BinOp::Sub, Some(size)) => Term::Less(size, l, e, f),
        _ => Term::Wrong,
    }
}

/// An operator over an integer and a pointer.
fn backward(s: &Setting, op: BinOp, k: IntKind, q: QualType, e: Box<Term>, f: Box<Term>) -> Term
    requires step { InStep s.now.layouts.now s.now.scope.unit.now.graph }
    requires there { q.of.0 < length s.now.scope.unit.now.graph.nodes }
    ensures { (x y : plain.Exp) → type_of (seen_scope s.now.scope) x ≡ Some (IntType k) → type_of (seen_scope s.now.scope) y ≡ Some (seen_shape s.now.scope.unit.now.graph (Seen.Ptr q))
        → Means (seen_scope s.now.scope) s.now.entities.now x e.value → Means (seen_scope s.now.scope) s.now.entities.now y f.value
        → Means (seen_scope s.now.scope) s.now.entities.now (plain.Bin op x y) result }
{
    let size = size_of(s, q.of);
    match (op, size) {
        (BinOp::Add, Some(size)) => Term::Sum(size, k, f, e),
        _ => Term::Wrong,
    }
}

/// An operator over two pointers.
fn pointers(s: &Setting, op: BinOp, q: QualType, r: QualType, e: Box<Term>, f: Box<Term>) -> Term
    requires step { InStep s.now.layouts.now s.now.scope.unit.now.graph }
    requires there { q.of.0 < length s.now.scope.unit.now.graph.nodes }
    ensures { (x y : plain.Exp) → type_of (seen_scope s.now.scope) x ≡ Some (seen_shape s.now.scope.unit.now.graph (Seen.Ptr q)) → type_of (seen_scope s.now.scope) y ≡ Some (seen_shape s.now.scope.unit.now.graph (Seen.Ptr r))
        → Means (seen_scope s.now.scope) s.now.entities.now x e.value → Means (seen_scope s.now.scope) s.now.entities.now y f.value
        → Means (seen_scope s.now.scope) s.now.entities.now (plain.Bin op x y) result }
{
    if is_comparison(op) {
        return Term::Relation(op, e, f);
    }
    match op {
        BinOp::Sub => difference(s, q, r, e, f),
        _ => Term::Wrong,
    }
}

/// The difference of two pointers.
fn difference(s: &Setting, q: QualType, r: QualType, e: Box<Term>, f: Box<Term>) -> Term
    requires step { InStep s.now.layouts.now s.now.scope.unit.now.graph }
    requires there { q.of.0 < length s.now.scope.unit.now.graph.nodes }
    ensures { (x y : plain.Exp) → type_of (seen_scope s.now.scope) x ≡ Some (seen_shape s.now.scope.unit.now.graph (Seen.Ptr q)) → type_of (seen_scope s.now.scope) y ≡ Some (seen_shape s.now.scope.unit.now.graph (Seen.Ptr r))
        → Means (seen_scope s.now.scope) s.now.entities.now x e.value → Means (seen_scope s.now.scope) s.now.entities.now y f.value
        → Means (seen_scope s.now.scope) s.now.entities.now (plain.Bin BinOp.Sub x y) result }
{
    // The elements are told by one of the types, since both are one.
    let _other = r.of;
    match size_of(s, q.of) {
        Some(size) => Term::Difference(size, e, f),
        None => Term::Wrong,
    }
}

/// Whether an operator compares its operands.
fn is_comparison(op: BinOp) -> bool
    ensures { result ≡ is_comparison op }
{
    match class_of(op) {
        Class::Comparison => true,
        Class::Arithmetic | Class::Shift(_) => false,
    }
}

/// A binary operator, whose operands have these types.
fn binary_term(s: &Setting, op: BinOp, a: Seen, b: Seen, e: Box<Term>, f: Box<Term>) -> Term
    requires step { InStep s.now.layouts.now s.now.scope.unit.now.graph }
    requires left { IsThere s.now.scope.unit.now.graph a }
    requires right { IsThere s.now.scope.unit.now.graph b }
    ensures { (x y : plain.Exp) → type_of (seen_scope s.now.scope) x ≡ Some (seen_shape s.now.scope.unit.now.graph a) → type_of (seen_scope s.now.scope) y ≡ Some (seen_shape s.now.scope.unit.now.graph b)
        → Means (seen_scope s.now.scope) s.now.entities.now x e.value → Means (seen_scope s.now.scope) s.now.entities.now y f.value
        → Means (seen_scope s.now.scope) s.now.entities.now (plain.Bin op x y) result }
{
    match (a, b) {
        (Seen::Int(k), Seen::Int(l)) => integers(s, op, k, l, e, f),
        (Seen::Ptr(q), Seen::Int(l)) => forward(s, op, q, l, e, f),
        (Seen::Int(k), Seen::Ptr(q)) => backward(s, op, k, q, e, f),
        (Seen::Ptr(q), Seen::Ptr(r)) => pointers(s, op, q, r, e, f),
        (Seen::Other(_), _) => Term::Wrong,
        (_, Seen::Other(_)) => Term::Wrong,
    }
}

/// A binary operator.
fn binary_typed(s: &Setting, op: BinOp, e: Typed, f: Typed) -> Result<Typed, Memory>
    requires step { InStep s.now.layouts.now s.now.scope.unit.now.graph }
    requires left { IfSome e.ty (IsThere s.now.scope.unit.now.graph) }
    requires right { IfSome f.ty (IsThere s.now.scope.unit.now.graph) }
    ensures { (x y : plain.Exp) → IsTyped (seen_scope s.now.scope) s.now.entities.now x e → IsTyped (seen_scope s.now.scope) s.now.entities.now y f
        → IfOk result (IsTyped (seen_scope s.now.scope) s.now.entities.now (plain.Bin op x y)) }
{
    let a = match e.ty {
        None => return Ok(untyped(s)),
        Some(a) => a,
    };
    let b = match f.ty {
        None => return Ok(untyped(s)),
        Some(b) => b,
    };
    let e = Box::new(s.alloc, e.term)?;
    let f = Box::new(s.alloc, f.term)?;
    let term = binary_term(s, op, a, b, e, f);
    let ty = binary(&s.scope.unit.graph, op, a, b);
    Ok(Typed { term, ty })
}

/// A conversion of what has this type.
#[tactic(auto, using(crate::proofs::Meanings::means_cast, crate::proofs::Typings::means_cast_nothing))]
fn cast_term(s: &Setting, t: Seen, e: Term) -> Result<Term, Memory>
    requires { IsThere s.now.scope.unit.now.graph t }
    ensures { (x : plain.Exp) (to : Shape) → type_of (seen_scope s.now.scope) x ≡ Some (seen_shape s.now.scope.unit.now.graph t)
        → Means (seen_scope s.now.scope) s.now.entities.now x e → IfOk result (Means (seen_scope s.now.scope) s.now.entities.now (plain.Cast (Some to) x)) }
{
    match scalar_of(&s.scope.unit.graph, t) {
        Some(from) => Ok(Term::Convert(from, Box::new(s.alloc, e)?)),
        None => Ok(Term::Wrong),
    }
}

/// A conversion to a type.
fn cast_typed(s: &Setting, to: TypeId, e: Typed) -> Result<Typed, Memory>
    requires { IfSome e.ty (IsThere s.now.scope.unit.now.graph) }
    ensures { (x : plain.Exp) → IsTyped (seen_scope s.now.scope) s.now.entities.now x e
        → IfOk result (IsTyped (seen_scope s.now.scope) s.now.entities.now (plain.Cast (type_at s.now.scope.unit.now.graph.nodes to) x)) }
{
    let to = match type_at(&s.scope.unit.graph, to) {
        None => return Ok(untyped(s)),
        Some(to) => to,
    };
    let t = match e.ty {
        None => return Ok(untyped(s)),
        Some(t) => t,
    };
    let term = cast_term(s, t, e.term)?;
    let ty = cast(&s.scope.unit.graph, to, t);
    Ok(Typed { term, ty })
}

/// What leads to no type.
#[tactic(auto, using(crate::proofs::Parts::lost))]
fn nowhere(s: &Setting) -> TypedSpot
    ensures { (w : plain.Lval) (rest : plain.Offsets) → place_type (seen_scope s.now.scope) w ≡ None → IsOnWay (seen_scope s.now.scope) s.now.entities.now w rest result }
{
    let _globals = s.entities.len();
    TypedSpot {
        spot: Spot::Wrong,
        ty: None,
    }
}

/// The offset of a member of a type; of what is no aggregate there is none to be told.
#[tactic(auto, using(crate::proofs::Sizes::offset_found))]
fn offset_of(s: &Setting, t: TypeId, n: u32) -> u32
    requires step { InStep s.now.layouts.now s.now.scope.unit.now.graph }
    requires there { t.0 < length s.now.scope.unit.now.graph.nodes }
    requires member { is_some (member_type s.now.scope.unit.now.graph (shape s.now.scope.unit.now.graph.nodes t.0) n) ≡ true }
    ensures { (a : ℕ) → aggregate_of (shape s.now.scope.unit.now.graph.nodes t.0) ≡ Some a → offset s.now.scope.unit.now.graph a n ≡ Some result }
{
    // What is known of an arena is known where it is read.
    let _types = s.scope.unit.graph.len();
    match s.scope.unit.graph.node(t) {
        Node::Agg(a) => s.layouts.offset(*a, n),
        Node::Void | Node::Int(_) | Node::Ptr(_) | Node::Array(..) | Node::Func { .. } => 0,
    }
}

/// A member of what is at a place of this type (C11 6.5.2.3).
fn member_typed(s: &Setting, t: TypeId, n: u32, whole: Box<Spot>) -> TypedSpot
    requires step { InStep s.now.layouts.now s.now.scope.unit.now.graph }
    requires there { t.0 < length s.now.scope.unit.now.graph.nodes }
    ensures { (w : plain.Lval) (rest : plain.Offsets) → IsPart (seen_scope s.now.scope) s.now.entities.now w (plain.Field n rest) whole.value (shape s.now.scope.unit.now.graph.nodes t.0)
        → IsOnWay (seen_scope s.now.scope) s.now.entities.now w rest result }
{
    match member(&s.scope.unit.graph, t, n) {
        None => nowhere(s),
        Some(ty) => TypedSpot {
            spot: Spot::Member(offset_of(s, t, n), whole),
            ty: Some(ty),
        },
    }
}

/// An element of that type, by an index of a kind.
fn element_spot(s: &Setting, t: TypeId, kind: IntKind, whole: Box<Spot>, i: Box<Term>) -> Spot
    requires step { InStep s.now.layouts.now s.now.scope.unit.now.graph }
    requires there { t.0 < length s.now.scope.unit.now.graph.nodes }
    ensures { (w : plain.Lval) (rest : plain.Offsets) (x : plain.Exp) (a : Shape) → IsPart (seen_scope s.now.scope) s.now.entities.now w (plain.Index x rest) whole.value a
        → type_of (seen_scope s.now.scope) x ≡ Some (IntType kind) → element_type a (IntType kind) ≡ Some (shape s.now.scope.unit.now.graph.nodes t.0)
        → Means (seen_scope s.now.scope) s.now.entities.now x i.value → IsPart (seen_scope s.now.scope) s.now.entities.now w rest result (shape s.now.scope.unit.now.graph.nodes t.0) }
{
    match size_of(s, t) {
        Some(size) => Spot::Element(size, kind, whole, i),
        None => Spot::Wrong,
    }
}

/// An element of what is at a place of this type, by an index of a kind (C11 6.5.2.1).
fn element_typed(s: &Setting, t: TypeId, kind: IntKind, whole: Box<Spot>, i: Box<Term>) -> TypedSpot
    requires step { InStep s.now.layouts.now s.now.scope.unit.now.graph }
    requires there { t.0 < length s.now.scope.unit.now.graph.nodes }
    ensures { (w : plain.Lval) (rest : plain.Offsets) (x : plain.Exp) → IsPart (seen_scope s.now.scope) s.now.entities.now w (plain.Index x rest) whole.value (shape s.now.scope.unit.now.graph.nodes t.0)
        → type_of (seen_scope s.now.scope) x ≡ Some (IntType kind) → Means (seen_scope s.now.scope) s.now.entities.now x i.value
        → IsOnWay (seen_scope s.now.scope) s.now.entities.now w rest result }
{
    match element(&s.scope.unit.graph, t, Seen::Int(kind)) {
        None => nowhere(s),
        Some(ty) => TypedSpot {
            spot: element_spot(s, ty, kind, whole, i),
            ty: Some(ty),
        },
    }
}

/// An element, by an index of a type.
fn indexed(s: &Setting, t: TypeId, by: Seen, whole: Box<Spot>, i: Box<Term>) -> TypedSpot
    requires step { InStep s.now.layouts.now s.now.scope.unit.now.graph }
    requires there { t.0 < length s.now.scope.unit.now.graph.nodes }
    ensures { (w : plain.Lval) (rest : plain.Offsets) (x : plain.Exp) → IsPart (seen_scope s.now.scope) s.now.entities.now w (plain.Index x rest) whole.value (shape s.now.scope.unit.now.graph.nodes t.0)
        → IsThere s.now.scope.unit.now.graph by → type_of (seen_scope s.now.scope) x ≡ Some (seen_shape s.now.scope.unit.now.graph by) → Means (seen_scope s.now.scope) s.now.entities.now x i.value
        → IsOnWay (seen_scope s.now.scope) s.now.entities.now w rest result }
{
    match by {
        Seen::Int(kind) => element_typed(s, t, kind, whole, i),
        Seen::Ptr(_) => nowhere(s),
        Seen::Other(_) => nowhere(s),
    }
}

/// An element, by an index that may have no type.
fn index_step(s: &Setting, t: TypeId, i: Typed, whole: Box<Spot>) -> Result<TypedSpot, Memory>
    requires step { InStep s.now.layouts.now s.now.scope.unit.now.graph }
    requires there { t.0 < length s.now.scope.unit.now.graph.nodes }
    requires index { IfSome i.ty (IsThere s.now.scope.unit.now.graph) }
    ensures { (w : plain.Lval) (rest : plain.Offsets) (x : plain.Exp) → IsPart (seen_scope s.now.scope) s.now.entities.now w (plain.Index x rest) whole.value (shape s.now.scope.unit.now.graph.nodes t.0)
        → IsTyped (seen_scope s.now.scope) s.now.entities.now x i → IfOk result (IsOnWay (seen_scope s.now.scope) s.now.entities.now w rest) }
{
    let by = match i.ty {
        None => return Ok(nowhere(s)),
        Some(by) => by,
    };
    let i = Box::new(s.alloc, i.term)?;
    Ok(indexed(s, t, by, whole, i))
}

/// A global.
#[tactic(auto, using(crate::proofs::Parts::means_global, crate::proofs::Parts::means_no_global))]
fn global(s: &Setting, n: EntityId) -> TypedSpot
    ensures { IsHosted (seen_scope s.now.scope) s.now.entities.now (plain.Global n.0) result }
{
    let spot = match s.entities.get(n.0 as usize) {
        Some(e) => Spot::Entity(EntityId(*e)),
        None => Spot::Wrong,
    };
    TypedSpot {
        spot,
        ty: global_type(&s.scope, n),
    }
}

/// A local.
#[tactic(auto, using(crate::proofs::Parts::means_local))]
fn local(s: &Setting, n: LocalId) -> TypedSpot
    ensures { IsHosted (seen_scope s.now.scope) s.now.entities.now (plain.Var n.0) result }
{
    let _globals = s.entities.len();
    TypedSpot {
        spot: Spot::Local(n),
        ty: local_type(&s.scope, n),
    }
}

/// The type of what an expression points to, if its type is a pointer (C11 6.5.3.2p4).
pub fn pointed_type(s: &Setting, e: Option<Seen>) -> Option<TypeId>
    requires { IfSome e (IsThere s.now.scope.unit.now.graph) }
    ensures told { at s.now.scope.unit.now.graph result ≡ option_and_then pointed (told s.now.scope.unit.now.graph e) }
    ensures there { IfSome result (λ t. t.0 < length s.now.scope.unit.now.graph.nodes) }
{
    match e {
        None => None,
        Some(t) => pointed(&s.scope.unit.graph, t),
    }
}

/// What a pointer points to (C11 6.5.3.2p4).
#[tactic(auto, using(crate::proofs::Parts::hosted_at))]
fn pointee(s: &Setting, e: Typed) -> Result<TypedSpot, Memory>
    requires { IfSome e.ty (IsThere s.now.scope.unit.now.graph) }
    ensures { (x : plain.Exp) → IsTyped (seen_scope s.now.scope) s.now.entities.now x e → IfOk result (IsHosted (seen_scope s.now.scope) s.now.entities.now (plain.At x)) }
{
    let ty = pointed_type(s, e.ty);
    Ok(TypedSpot {
        spot: Spot::At(Box::new(s.alloc, e.term)?),
        ty,
    })
}

/// A resolved expression, with its type. Its value is that of the expression, in each memory and activation, where
/// the expression has a scalar type. Memory comes only for want of memory.
#[cycle(resolution)]
#[tactic(auto, using(cil_tree::proofs::Views::at_value, cil_tree::proofs::Views::at_address, cil_tree::proofs::Views::at_start))]
pub fn resolve(s: &Setting, e: &Exp) -> Result<Typed, Memory>
    requires { InStep s.now.layouts.now s.now.scope.unit.now.graph }
    ensures { IfOk result (IsTyped (seen_scope s.now.scope) s.now.entities.now (exp_of s.now.scope.unit.now.graph.nodes e.now)) }
{
    match e {
        Exp::Const(kind, n) => Ok(number(s, *kind, *n)),
        Exp::Lval(place) => Ok(load(s, resolve_place(s, place)?)),
        Exp::Un(op, e) => unary_typed(s, *op, resolve(s, e)?),
        Exp::Bin(op, left, right) => {
            let left = resolve(s, left)?;
            binary_typed(s, *op, left, resolve(s, right)?)
        }
        Exp::Cast(to, e) => cast_typed(s, *to, resolve(s, e)?),
        Exp::AddrOf(place) => Ok(address(s, resolve_place(s, place)?)),
        Exp::StartOf(place) => Ok(start(s, resolve_place(s, place)?)),
    }
}

/// A resolved place, with its type. It is the place of the lvalue, in each memory and activation, where the lvalue
/// has a type. Memory comes only for want of memory.
#[cycle(resolution)]
#[tactic(auto, using(crate::proofs::Parts::way_begins, crate::proofs::Parts::way_ends, crate::proofs::Parts::way_next))]
pub fn resolve_place(s: &Setting, place: &Lval) -> Result<TypedSpot, Memory>
    requires { InStep s.now.layouts.now s.now.scope.unit.now.graph }
    ensures { IfOk result (IsPlaced (seen_scope s.now.scope) s.now.entities.now (lval_of s.now.scope.unit.now.graph.nodes place.now)) }
{
    let mut at = resolve_host(s, &place.host)?;
    for offset in &place.offsets {
        at = step(s, offset, at)?;
    }
    Ok(at)
}

/// What a place begins with.
#[cycle(resolution)]
fn resolve_host(s: &Setting, host: &Host) -> Result<TypedSpot, Memory>
    requires { InStep s.now.layouts.now s.now.scope.unit.now.graph }
    ensures { IfOk result (IsHosted (seen_scope s.now.scope) s.now.entities.now (host_of s.now.scope.unit.now.graph.nodes host.now)) }
{
    match host {
        Host::Global(n) => Ok(global(s, *n)),
        Host::Var(n) => Ok(local(s, *n)),
        Host::At(pointer) => pointee(s, resolve(s, pointer)?),
    }
}

/// One step of a way, from what the steps before it lead to.
#[cycle(resolution)]
fn step(s: &Setting, offset: &Offset, whole: TypedSpot) -> Result<TypedSpot, Memory>
    requires step { InStep s.now.layouts.now s.now.scope.unit.now.graph }
    requires there { IfSome whole.ty (λ t. t.0 < length s.now.scope.unit.now.graph.nodes) }
    ensures { (w : plain.Lval) (rest : List Offset) → IsOnWay (seen_scope s.now.scope) s.now.entities.now w (offsets_of s.now.scope.unit.now.graph.nodes (offset.now ∷ rest)) whole
        → IfOk result (IsOnWay (seen_scope s.now.scope) s.now.entities.now w (offsets_of s.now.scope.unit.now.graph.nodes rest)) }
{
    let t = match whole.ty {
        None => return Ok(nowhere(s)),
        Some(t) => t,
    };
    let whole = Box::new(s.alloc, whole.spot)?;
    match offset {
        Offset::Field(n) => Ok(member_typed(s, t, *n, whole)),
        Offset::Index(e) => index_step(s, t, resolve(s, e)?, whole),
    }
}
