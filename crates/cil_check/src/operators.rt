ghost use Rattle.std.specs.Prelude.{◌≡◌, ◌<◌, true, false, pos, IfSome, Some, None, length, slice_get, if◌then◌else◌};
ghost use Rattle.cil_base.specs.Arithmetic.{fits, is_shift};
ghost use Rattle.type_graph.specs.Shapes.{shape, AggType};
ghost use Rattle.type_graph.specs.Arena.{Graph};
ghost use Rattle.cil_tree.specs.Typing.{is_scalar, is_void, is_array, is_function, is_wide, is_comparison, constant_type, read_type, address_type, start_type, unary_type, integer_type, moved_type, pointers_type, forward_type, backward_type, binary_type, cast_type, pointed, names_enum, is_index, element_type, element_of, member_type};
ghost use Rattle.std.specs.Option.{option_map};
ghost use Rattle.type_graph.specs.declared.aggregates.Member.{Member};
ghost use Rattle.cil_check.specs.Rules.{AreThere};
ghost use Rattle.cil_check.specs.Seen.{seen_shape, IsThere, told, at, bare};

use crate::seen::{Seen, is_same, see};
use cil_base::{AggId, BinOp, IntKind, TypeId, UnOp};
use type_graph::{AggKind, Member, Node, QualType, TypeGraph, unqualified};

/// Whether a kind is int or wider (C11 6.3.1.1p2).
pub fn is_wide(kind: IntKind) -> bool
    ensures { result ≡ is_wide kind }
{
    kind.rank() >= IntKind::Int.rank()
}

/// Whether an aggregate of the graph is an enum.
pub fn names_enum(g: &TypeGraph, a: AggId) -> bool
    requires { a.0 < length g.now.aggs }
    ensures { result ≡ names_enum g.now a.0 }
{
    match g.agg(a).kind {
        AggKind::Enum => true,
        AggKind::Struct | AggKind::Union => false,
    }
}

/// Whether the type is scalar (C11 6.2.5p21).
pub fn is_scalar(g: &TypeGraph, t: Seen) -> bool
    requires { IsThere g.now t }
    ensures { result ≡ is_scalar g.now (seen_shape g.now t) }
{
    match t {
        Seen::Int(_) | Seen::Ptr(_) => true,
        Seen::Other(t) => is_enum_type(g, t),
    }
}

/// Whether a type that is neither a kind nor a pointer is an enum.
fn is_enum_type(g: &TypeGraph, t: TypeId) -> bool
    requires { IsThere g.now (Seen.Other t) }
    ensures { result ≡ is_scalar g.now (shape g.now.nodes t.0) }
{
    match g.node(t) {
        Node::Agg(a) => names_enum(g, *a),
        Node::Void | Node::Int(_) | Node::Ptr(_) | Node::Array(..) | Node::Func { .. } => false,
    }
}

/// Whether the type is void.
pub fn is_void(g: &TypeGraph, t: TypeId) -> bool
    requires { t.0 < length g.now.nodes }
    ensures { result ≡ is_void (shape g.now.nodes t.0) }
{
    match g.node(t) {
        Node::Void => true,
        Node::Int(_) | Node::Ptr(_) | Node::Array(..) | Node::Func { .. } | Node::Agg(_) => false,
    }
}

/// Whether the type is an array type.
pub fn is_array(g: &TypeGraph, t: TypeId) -> bool
    requires { t.0 < length g.now.nodes }
    ensures { result ≡ is_array (shape g.now.nodes t.0) }
{
    match g.node(t) {
        Node::Array(..) => true,
        Node::Void | Node::Int(_) | Node::Ptr(_) | Node::Func { .. } | Node::Agg(_) => false,
    }
}

/// Whether the type is a function type.
pub fn is_function(g: &TypeGraph, t: TypeId) -> bool
    requires { t.0 < length g.now.nodes }
    ensures { result ≡ is_function (shape g.now.nodes t.0) }
{
    match g.node(t) {
        Node::Func { .. } => true,
        Node::Void | Node::Int(_) | Node::Ptr(_) | Node::Array(..) | Node::Agg(_) => false,
    }
}

/// The type of a constant (C11 6.4.4.1): a kind of the data model, int or wider, that has its value.
pub fn constant(g: &TypeGraph, kind: IntKind, value: u64) -> Option<Seen>
    ensures told { told g.now result ≡ constant_type (bare g.now) kind (pos value) }
    ensures there { IfSome result (IsThere g.now) }
{
    if is_wide(kind) && kind.is_of(g.abi()) && kind.fits(value as i128) {
        Some(Seen::Int(kind))
    } else {
        None
    }
}

/// The type of the value of a place: that of the place, which is complete and no array (C11 6.3.2.1p2).
pub fn read(g: &TypeGraph, place: TypeId) -> Option<Seen>
    requires { place.0 < length g.now.nodes }
    ensures told { told g.now result ≡ read_type (bare g.now) (shape g.now.nodes place.0) }
    ensures there { IfSome result (IsThere g.now) }
{
    if g.is_complete(place) && !is_array(g, place) {
        Some(see(g, place))
    } else {
        None
    }
}

/// The type of the address of a place, which is not void (C11 6.5.3.2p3).
pub fn address(g: &TypeGraph, place: TypeId) -> Option<Seen>
    requires { place.0 < length g.now.nodes }
    ensures told { told g.now result ≡ address_type (shape g.now.nodes place.0) }
    ensures there { IfSome result (IsThere g.now) }
{
    if is_void(g, place) {
        None
    } else {
        Some(Seen::Ptr(unqualified(place)))
    }
}

/// The type of the address of an array's first element (C11 6.3.2.1p3).
pub fn start(g: &TypeGraph, place: TypeId) -> Option<Seen>
    requires { place.0 < length g.now.nodes }
    ensures told { told g.now result ≡ start_type (shape g.now.nodes place.0) }
    ensures there { IfSome result (IsThere g.now) }
{
    match g.node(place) {
        Node::Array(q, _) => Some(Seen::Ptr(unqualified(q.of))),
        Node::Void | Node::Int(_) | Node::Ptr(_) | Node::Func { .. } | Node::Agg(_) => None,
    }
}

/// The type of `op e` (C11 6.5.3.3).
pub fn unary(g: &TypeGraph, op: UnOp, operand: Seen) -> Option<Seen>
    requires { IsThere g.now operand }
    ensures told { told g.now result ≡ unary_type (bare g.now) op (seen_shape g.now operand) }
    ensures there { IfSome result (IsThere g.now) }
{
    match (op, operand) {
        (UnOp::Not, _) => if_true(is_scalar(g, operand), IntKind::Int),
        (UnOp::Neg | UnOp::Compl, Seen::Int(kind)) => if_true(is_wide(kind), kind),
        (UnOp::Neg | UnOp::Compl, Seen::Ptr(_) | Seen::Other(_)) => None,
    }
}

/// A kind, if a test holds.
fn if_true(holds: bool, kind: IntKind) -> Option<Seen>
    ensures { result ≡ (if holds then Some (Seen.Int kind) else None) }
{
    if holds { Some(Seen::Int(kind)) } else { None }
}

/// Whether an operator compares its operands.
fn is_comparison(op: BinOp) -> bool
    ensures { result ≡ is_comparison op }
{
    match op {
        BinOp::Lt | BinOp::Gt | BinOp::Le | BinOp::Ge | BinOp::Eq | BinOp::Ne => true,
        BinOp::Mul
        | BinOp::Div
        | BinOp::Rem
        | BinOp::Add
        | BinOp::Sub
        | BinOp::Shl
        | BinOp::Shr
        | BinOp::And
        | BinOp::Xor
        | BinOp::Or => false,
    }
}

/// Whether an operator shifts its left operand.
fn is_shift(op: BinOp) -> bool
    ensures { result ≡ is_shift op }
{
    match op {
        BinOp::Shl | BinOp::Shr => true,
        BinOp::Mul
        | BinOp::Div
        | BinOp::Rem
        | BinOp::Add
        | BinOp::Sub
        | BinOp::Lt
        | BinOp::Gt
        | BinOp::Le
        | BinOp::Ge
        | BinOp::Eq
        | BinOp::Ne
        | BinOp::And
        | BinOp::Xor
        | BinOp::Or => false,
    }
}

/// The type of an operator over integers (C11 6.5.5 to 6.5.12).
fn integers(g: &TypeGraph, op: BinOp, k: IntKind, l: IntKind) -> Option<Seen>
    ensures told { told g.now result ≡ integer_type op k l }
    ensures there { IfSome result (IsThere g.now) }
{
    // The graph is what types are told by; kinds need none of it.
    let _types = g.len();
    let fits = is_wide(k) && is_wide(l) && (is_shift(op) || k == l);
    if_true(fits, result_kind(op, k))
}

/// The kind of the result of an operator over integers: int for a comparison (C11 6.5.8p6, 6.5.9p3).
fn result_kind(op: BinOp, k: IntKind) -> IntKind
    ensures { result ≡ (if is_comparison op then IntKind.Int else k) }
{
    if is_comparison(op) { IntKind::Int } else { k }
}

/// The type of a pointer to a complete object that is moved by an integer (C11 6.5.6p2, p3).
fn moved(g: &TypeGraph, to: QualType, kind: IntKind) -> Option<Seen>
    requires { to.of.0 < length g.now.nodes }
    ensures told { told g.now result ≡ moved_type (bare g.now) (shape g.now.nodes to.of.0) kind }
    ensures there { IfSome result (IsThere g.now) }
{
    if is_wide(kind) && g.is_complete(to.of) {
        Some(Seen::Ptr(unqualified(to.of)))
    } else {
        None
    }
}

/// The type of an operator over a pointer and an integer.
fn forward(g: &TypeGraph, op: BinOp, to: QualType, kind: IntKind) -> Option<Seen>
    requires { to.of.0 < length g.now.nodes }
    ensures told { told g.now result ≡ forward_type (bare g.now) op (shape g.now.nodes to.of.0) kind }
    ensures there { IfSome result (IsThere g.now) }
{
    match op {
        BinOp::Add | BinOp::Sub => moved(g, to, kind),
        BinOp::Mul
        | BinOp::Div
        | BinOp::Rem
        | BinOp::Shl
        | BinOp::Shr
        | BinOp::Lt
        | BinOp::Gt
        | BinOp::Le
        | BinOp::Ge
        | BinOp::Eq
        | BinOp::Ne
        | BinOp::And
        | BinOp::Xor
        | BinOp::Or => None,
    }
}

/// The type of an operator over an integer and a pointer.
fn backward(g: &TypeGraph, op: BinOp, kind: IntKind, to: QualType) -> Option<Seen>
    requires { to.of.0 < length g.now.nodes }
    ensures told { told g.now result ≡ backward_type (bare g.now) op kind (shape g.now.nodes to.of.0) }
    ensures there { IfSome result (IsThere g.now) }
{
    match op {
        BinOp::Add => moved(g, to, kind),
        BinOp::Mul
        | BinOp::Div
        | BinOp::Rem
        | BinOp::Sub
        | BinOp::Shl
        | BinOp::Shr
        | BinOp::Lt
        | BinOp::Gt
        | BinOp::Le
        | BinOp::Ge
        | BinOp::Eq
        | BinOp::Ne
        | BinOp::And
        | BinOp::Xor
        | BinOp::Or => None,
    }
}

/// The type of an operator over two pointers to a type (C11 6.5.6p3, 6.5.8p2, 6.5.9p2).
fn pointers(g: &TypeGraph, op: BinOp, to: TypeId) -> Option<Seen>
    requires { to.0 < length g.now.nodes }
    ensures told { told g.now result ≡ pointers_type (bare g.now) op (shape g.now.nodes to.0) }
    ensures there { IfSome result (IsThere g.now) }
{
    match op {
        BinOp::Sub => if_true(g.is_complete(to), g.abi().long()),
        BinOp::Lt | BinOp::Gt | BinOp::Le | BinOp::Ge => {
            if_true(!is_function(g, to), IntKind::Int)
        }
        BinOp::Eq | BinOp::Ne => Some(Seen::Int(IntKind::Int)),
        BinOp::Mul
        | BinOp::Div
        | BinOp::Rem
        | BinOp::Add
        | BinOp::Shl
        | BinOp::Shr
        | BinOp::And
        | BinOp::Xor
        | BinOp::Or => None,
    }
}

/// The type of an operator over two pointers, which have one type.
fn same_pointers(g: &TypeGraph, op: BinOp, p: QualType, q: QualType) -> Option<Seen>
    requires left { p.of.0 < length g.now.nodes }
    requires right { q.of.0 < length g.now.nodes }
    ensures told { told g.now result ≡ binary_type (bare g.now) op (seen_shape g.now (Seen.Ptr p)) (seen_shape g.now (Seen.Ptr q)) }
    ensures there { IfSome result (IsThere g.now) }
{
    if is_same(g, Seen::Ptr(p), Seen::Ptr(q)) {
        pointers(g, op, p.of)
    } else {
        None
    }
}

/// The type of a binary operator: over integers, over a pointer and an integer, or over two pointers.
pub fn binary(g: &TypeGraph, op: BinOp, left: Seen, right: Seen) -> Option<Seen>
    requires left { IsThere g.now left }
    requires right { IsThere g.now right }
    ensures told { told g.now result ≡ binary_type (bare g.now) op (seen_shape g.now left) (seen_shape g.now right) }
    ensures there { IfSome result (IsThere g.now) }
{
    match (left, right) {
        (Seen::Int(k), Seen::Int(l)) => integers(g, op, k, l),
        (Seen::Ptr(p), Seen::Int(l)) => forward(g, op, p, l),
        (Seen::Int(k), Seen::Ptr(q)) => backward(g, op, k, q),
        (Seen::Ptr(p), Seen::Ptr(q)) => same_pointers(g, op, p, q),
        (Seen::Other(_), _) => None,
        (_, Seen::Other(_)) => None,
    }
}

/// Whether a type that is seen is void.
pub fn is_void_type(g: &TypeGraph, t: Seen) -> bool
    requires { IsThere g.now t }
    ensures { result ≡ is_void (seen_shape g.now t) }
{
    match t {
        Seen::Other(t) => is_void(g, t),
        Seen::Int(_) | Seen::Ptr(_) => false,
    }
}

/// The type of a conversion (C11 6.5.4p2).
pub fn cast(g: &TypeGraph, to: Seen, operand: Seen) -> Option<Seen>
    requires to { IsThere g.now to }
    requires operand { IsThere g.now operand }
    ensures told { told g.now result ≡ cast_type (bare g.now) (seen_shape g.now to) (seen_shape g.now operand) }
    ensures there { IfSome result (IsThere g.now) }
{
    if is_void_type(g, to) || (is_scalar(g, to) && is_scalar(g, operand)) {
        Some(to)
    } else {
        None
    }
}

/// What a pointer points to (C11 6.5.3.2p4).
pub fn pointed(g: &TypeGraph, pointer: Seen) -> Option<TypeId>
    requires { IsThere g.now pointer }
    ensures told { at g.now result ≡ pointed (seen_shape g.now pointer) }
    ensures there { IfSome result (λ t. t.0 < length g.now.nodes) }
{
    match pointer {
        Seen::Ptr(q) => Some(q.of),
        Seen::Int(_) | Seen::Other(_) => None,
    }
}

/// The type of an element that an index leads to (C11 6.5.2.1).
pub fn element(g: &TypeGraph, array: TypeId, index: Seen) -> Option<TypeId>
    requires array { array.0 < length g.now.nodes }
    requires index { IsThere g.now index }
    ensures told { at g.now result ≡ element_type (shape g.now.nodes array.0) (seen_shape g.now index) }
    ensures there { IfSome result (λ t. t.0 < length g.now.nodes) }
{
    if is_index(index) {
        element_of(g, array)
    } else {
        None
    }
}

/// Whether a type is an integer's, int or wider.
fn is_index(t: Seen) -> bool
    ensures { (g : Graph) → IsThere g t → result ≡ is_index (seen_shape g t) }
{
    match t {
        Seen::Int(kind) => is_wide(kind),
        Seen::Ptr(_) | Seen::Other(_) => false,
    }
}

/// The type of an array's elements.
pub fn element_of(g: &TypeGraph, array: TypeId) -> Option<TypeId>
    requires { array.0 < length g.now.nodes }
    ensures told { at g.now result ≡ element_of (shape g.now.nodes array.0) }
    ensures there { IfSome result (λ t. t.0 < length g.now.nodes) }
{
    match g.node(array) {
        Node::Array(q, _) => Some(q.of),
        Node::Void | Node::Int(_) | Node::Ptr(_) | Node::Func { .. } | Node::Agg(_) => None,
    }
}

/// The type of a member of a complete struct or union (C11 6.5.2.3).
pub fn member(g: &TypeGraph, t: TypeId, number: u32) -> Option<TypeId>
    requires { t.0 < length g.now.nodes }
    ensures told { at g.now result ≡ member_type g.now (shape g.now.nodes t.0) number }
    ensures there { IfSome result (λ t. t.0 < length g.now.nodes) }
{
    match g.node(t) {
        Node::Agg(a) => aggregate_member(g, *a, number),
        Node::Void | Node::Int(_) | Node::Ptr(_) | Node::Array(..) | Node::Func { .. } => None,
    }
}

/// The type of a member of an aggregate.
#[tactic(auto, using(crate::proofs::ExpressionSteps::members_found))]
fn aggregate_member(g: &TypeGraph, a: AggId, number: u32) -> Option<TypeId>
    requires { a.0 < length g.now.aggs }
    ensures told { at g.now result ≡ member_type g.now (AggType a.0) number }
    ensures there { IfSome result (λ t. t.0 < length g.now.nodes) }
{
    // What is known of an arena is known where it is read.
    let _types = g.len();
    if names_enum(g, a) {
        return None;
    }
    match &g.agg(a).members {
        None => None,
        Some(members) => type_among(g, members.as_slice(), number),
    }
}

/// The type of one of the members.
#[tactic(auto, using(crate::proofs::ExpressionSteps::member_at))]
fn type_among(g: &TypeGraph, members: &[Member], number: u32) -> Option<TypeId>
    requires { AreThere (length g.now.nodes) members.now }
    ensures told { at g.now result ≡ option_map (λ (m : Member). shape g.now.nodes m.ty.of.0) (slice_get members.now number) }
    ensures there { IfSome result (λ t. t.0 < length g.now.nodes) }
{
    let member = members.get(number as usize)?;
    Some(member.ty.of)
}
