ghost use Rattle.std.specs.Prelude.{◌||◌, false, true, suc, max, IfOk};
ghost use Rattle.type_graph.specs.Shapes.{shape};
ghost use Rattle.typed_tree.specs.Tree as tree;
ghost use Rattle.typed_tree.specs.View.{form_of, typed_of, arguments_of, typed_init_of};
ghost use Rattle.typed_tree.specs.Top.{top_in, top_of, top_list, top_init};
ghost use Rattle.typed_tree.specs.Built.{IsBuilt};
ghost use Rattle.unit_types.specs.Normal.{unqualified};

use crate::expressions::{Branches, Logic, StepForm, TypedExp, TypedNode};
use crate::initialisers::TypedInit;
use cil_base::{AggId, BinOp, EntityId, LocalId, Memory, TypeId, UnOp};
use std::alloc::Global;
use type_graph::{QualType, unqualified};

/// A node in its box.
fn made(alloc: Global, ty: QualType, effect: bool, node: TypedNode) -> Result<TypedExp, Memory>
    ensures { IfOk result (IsBuilt ty effect (λ nodes. form_of nodes node) (top_in node)) }
{
    let node = Box::new(alloc, node)?;
    Ok(TypedExp { ty, effect, node })
}

/// An integer constant of a type (C11 6.4.4).
pub fn integer(alloc: Global, of: TypeId, n: i128) -> Result<TypedExp, Memory>
    ensures { IfOk result (IsBuilt (unqualified of) false (λ nodes. tree.Integer n) 0) }
{
    made(alloc, unqualified(of), false, TypedNode::Integer(n))
}

/// The place of a declared object or a parameter.
pub fn local(alloc: Global, ty: QualType, n: LocalId) -> Result<TypedExp, Memory>
    ensures { IfOk result (IsBuilt ty false (λ nodes. tree.Local n.0) 0) }
{
    made(alloc, ty, false, TypedNode::Local(n))
}

/// The place of a compound literal in a function (C11 6.5.2.5).
pub fn literal(alloc: Global, ty: QualType, n: u32, init: TypedInit) -> Result<TypedExp, Memory>
    ensures { IfOk result (IsBuilt ty true (λ nodes. tree.Literal n (typed_init_of nodes init)) (top_init init)) }
{
    made(alloc, ty, true, TypedNode::Literal(n, init))
}

/// The place of an object with static storage duration, or a function, at the type that is visible.
pub fn entity(alloc: Global, ty: QualType, n: EntityId) -> Result<TypedExp, Memory>
    ensures { IfOk result (IsBuilt ty false (λ nodes. tree.Entity n.0) 0) }
{
    made(alloc, ty, false, TypedNode::Entity(n))
}

/// The value of a place (C11 6.3.2.1p2).
pub fn load(alloc: Global, place: TypedExp) -> Result<TypedExp, Memory>
    ensures { IfOk result (IsBuilt (unqualified place.ty.of) place.effect (λ nodes. tree.Load (typed_of nodes place)) (top_of place)) }
{
    let effect = place.effect;
    let of = place.ty.of;
    made(alloc, unqualified(of), effect, TypedNode::Load(place))
}

/// The pointer to which an array or a function decays (C11 6.3.2.1p3, p4).
pub fn decay(alloc: Global, pointer: TypeId, e: TypedExp) -> Result<TypedExp, Memory>
    ensures { IfOk result (IsBuilt (unqualified pointer) e.effect (λ nodes. tree.Decay (typed_of nodes e)) (top_of e)) }
{
    let effect = e.effect;
    made(alloc, unqualified(pointer), effect, TypedNode::Decay(e))
}

/// The address of a place or a function (C11 6.5.3.2).
pub fn address(alloc: Global, pointer: TypeId, e: TypedExp) -> Result<TypedExp, Memory>
    ensures { IfOk result (IsBuilt (unqualified pointer) e.effect (λ nodes. tree.Address (typed_of nodes e)) (top_of e)) }
{
    let effect = e.effect;
    made(alloc, unqualified(pointer), effect, TypedNode::Address(e))
}

/// What a pointer points to (C11 6.5.3.2).
pub fn indirect(alloc: Global, ty: QualType, pointer: TypedExp) -> Result<TypedExp, Memory>
    ensures { IfOk result (IsBuilt ty pointer.effect (λ nodes. tree.Indirect (typed_of nodes pointer)) (top_of pointer)) }
{
    let effect = pointer.effect;
    made(alloc, ty, effect, TypedNode::Indirect(pointer))
}

/// An element of an array (C11 6.5.2.1), from the operands in the order of the text.
pub fn subscript(
    alloc: Global,
    ty: QualType,
    left: TypedExp,
    right: TypedExp,
) -> Result<TypedExp, Memory>
    ensures { IfOk result (IsBuilt ty (left.effect || right.effect) (λ nodes. tree.Subscript (typed_of nodes left) (typed_of nodes right)) (max (top_of left) (top_of right))) }
{
    let effect = left.effect || right.effect;
    made(alloc, ty, effect, TypedNode::Subscript(left, right))
}

/// A member of a struct or union (C11 6.5.2.3).
pub fn member(
    alloc: Global,
    ty: QualType,
    of: TypedExp,
    a: AggId,
    i: u32,
) -> Result<TypedExp, Memory>
    ensures { IfOk result (IsBuilt ty of.effect (λ nodes. tree.Member (typed_of nodes of) a.0 i) (top_of of)) }
{
    let effect = of.effect;
    made(alloc, ty, effect, TypedNode::Member(of, a, i))
}

/// A conversion of a value to a type (C11 6.3).
pub fn convert(alloc: Global, to: TypeId, e: TypedExp) -> Result<TypedExp, Memory>
    ensures { IfOk result (IsBuilt (unqualified to) e.effect (λ nodes. tree.Convert (typed_of nodes e)) (top_of e)) }
{
    let effect = e.effect;
    made(alloc, unqualified(to), effect, TypedNode::Convert(e))
}

/// A unary operator (C11 6.5.3.3).
pub fn unary(alloc: Global, of: TypeId, op: UnOp, e: TypedExp) -> Result<TypedExp, Memory>
    ensures { IfOk result (IsBuilt (unqualified of) e.effect (λ nodes. tree.Unary op (typed_of nodes e)) (top_of e)) }
{
    let effect = e.effect;
    made(alloc, unqualified(of), effect, TypedNode::Unary(op, e))
}

/// A binary operator (C11 6.5.5 to 6.5.12).
pub fn binary(
    alloc: Global,
    of: TypeId,
    op: BinOp,
    left: TypedExp,
    right: TypedExp,
) -> Result<TypedExp, Memory>
    ensures { IfOk result (IsBuilt (unqualified of) (left.effect || right.effect) (λ nodes. tree.Binary op (typed_of nodes left) (typed_of nodes right)) (max (top_of left) (top_of right))) }
{
    let effect = left.effect || right.effect;
    made(
        alloc,
        unqualified(of),
        effect,
        TypedNode::Binary(op, left, right),
    )
}

/// `&&` and `||` (C11 6.5.13, 6.5.14).
pub fn logical(
    alloc: Global,
    of: TypeId,
    op: Logic,
    left: TypedExp,
    right: TypedExp,
) -> Result<TypedExp, Memory>
    ensures { IfOk result (IsBuilt (unqualified of) true (λ nodes. tree.Logical op (typed_of nodes left) (typed_of nodes right)) (max (top_of left) (top_of right))) }
{
    made(
        alloc,
        unqualified(of),
        true,
        TypedNode::Logical(op, left, right),
    )
}

/// A conditional (C11 6.5.15).
pub fn conditional(
    alloc: Global,
    of: TypeId,
    test: TypedExp,
    branches: Box<Branches>,
) -> Result<TypedExp, Memory>
    ensures { IfOk result (IsBuilt (unqualified of) true (λ nodes. tree.Conditional (typed_of nodes test) (typed_of nodes branches.value.holds) (typed_of nodes branches.value.fails)) (max (top_of test) (max (top_of branches.value.holds) (top_of branches.value.fails)))) }
{
    made(
        alloc,
        unqualified(of),
        true,
        TypedNode::Conditional(test, branches),
    )
}

/// A comma (C11 6.5.17).
pub fn comma(alloc: Global, left: TypedExp, right: TypedExp) -> Result<TypedExp, Memory>
    ensures { IfOk result (IsBuilt (unqualified right.ty.of) true (λ nodes. tree.Comma (typed_of nodes left) (typed_of nodes right)) (max (top_of left) (top_of right))) }
{
    let of = right.ty.of;
    made(alloc, unqualified(of), true, TypedNode::Comma(left, right))
}

/// An assignment (C11 6.5.16.1). The value has the place's type.
pub fn assign(alloc: Global, place: TypedExp, value: TypedExp) -> Result<TypedExp, Memory>
    ensures { IfOk result (IsBuilt (unqualified place.ty.of) true (λ nodes. tree.Assign (typed_of nodes place) (typed_of nodes value)) (max (top_of place) (top_of value))) }
{
    let of = place.ty.of;
    made(
        alloc,
        unqualified(of),
        true,
        TypedNode::Assign(place, value),
    )
}

/// A compound assignment (C11 6.5.16.2), computed in a type.
pub fn compute(
    alloc: Global,
    op: BinOp,
    at: TypeId,
    place: TypedExp,
    value: TypedExp,
) -> Result<TypedExp, Memory>
    ensures { IfOk result (IsBuilt (unqualified place.ty.of) true (λ nodes. tree.Compute op (shape nodes at.0) (typed_of nodes place) (typed_of nodes value)) (max (suc at.0) (max (top_of place) (top_of value)))) }
{
    let of = place.ty.of;
    made(
        alloc,
        unqualified(of),
        true,
        TypedNode::Compute(op, at, place, value),
    )
}

/// An increment or decrement (C11 6.5.2.4, 6.5.3.1), computed in a type.
pub fn step(alloc: Global, form: StepForm, at: TypeId, place: TypedExp) -> Result<TypedExp, Memory>
    ensures { IfOk result (IsBuilt (unqualified place.ty.of) true (λ nodes. tree.Step form (shape nodes at.0) (typed_of nodes place)) (max (suc at.0) (top_of place))) }
{
    let of = place.ty.of;
    made(
        alloc,
        unqualified(of),
        true,
        TypedNode::Step(form, at, place),
    )
}

/// A call (C11 6.5.2.2), whose result has a type.
pub fn call(
    alloc: Global,
    of: TypeId,
    callee: TypedExp,
    arguments: Vec<TypedExp>,
) -> Result<TypedExp, Memory>
    ensures { IfOk result (IsBuilt (unqualified of) true (λ nodes. tree.Call (typed_of nodes callee) (arguments_of nodes arguments.items)) (max (top_of callee) (top_list arguments.items))) }
{
    made(
        alloc,
        unqualified(of),
        true,
        TypedNode::Call(callee, arguments),
    )
}
