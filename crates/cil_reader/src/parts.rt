ghost use Rattle.std.specs.Prelude.{◌≡◌, ◌<◌, true, false, Some, length, IfOk, OnOk};
ghost use Rattle.std.specs.Option.{option_and_then};
ghost use Rattle.type_graph.specs.Shapes.{shape};
ghost use Rattle.cil_nodes.specs.Built.{part_of};
ghost use Rattle.cil_tree.specs.Tree.{Const, Un, Bin, Cast, AddrOf, At, Place, Here, Field, Index};
ghost use Rattle.cil_tree.specs.Typing.{element_of};
ghost use Rattle.cil_tree.specs.View.{exp_of, host_of, lval_of};
ghost use Rattle.cil_text.specs.ReadExps.{chosen, is_array_type, fields, type_of_named};
ghost use Rattle.cil_reader.specs.Settings.{env_in, type_in};
ghost use Rattle.cil_reader.specs.Parts.{ExpKnown, HostKnown, PlaceKnown, IsMoved};

use crate::reader::Reader;
use cil_base::{BinOp, IntKind, Memory, TypeId, UnOp};
use cil_nodes::{
    add_element, add_field, address, at, binary, boxed, cast, constant, start, unary, value, whole,
};
use cil_tree::{Exp, Host, Lval};

/// An expression, and what it points to if its type is a pointer.
#[derive(Drop)]
pub(crate) struct Operand {
    pub exp: Box<Exp>,
    pub to: Option<TypeId>,
}

/// What a place begins with, and its type.
#[derive(Drop)]
pub(crate) struct Based {
    pub host: Host,
    pub ty: Option<TypeId>,
}

/// A place and its type.
#[derive(Drop)]
pub(crate) struct Located {
    pub place: Lval,
    pub ty: Option<TypeId>,
}

/// What a sum or a difference points to (C11 6.5.6), by what its operands point to.
pub(crate) fn moved(op: BinOp, left: Option<TypeId>, right: Option<TypeId>) -> Option<TypeId>
    ensures { IsMoved op left right result }
{
    match op {
        BinOp::Add => match left {
            Some(_) => left,
            None => right,
        },
        BinOp::Sub => match right {
            Some(_) => None,
            None => left,
        },
        _ => None,
    }
}

/// A constant.
#[tactic(auto, using(crate::proofs::PartsLaws::const_tree, crate::proofs::PartsLaws::known_const))]
pub(crate) fn with_constant(r: &Reader, kind: IntKind, n: u64) -> Result<Operand, Memory>
    ensures tree { IfOk result (λ y. exp_of r.now.graph.nodes y.exp.value ≡ Const kind n) }
    ensures known { IfOk result (λ y. ExpKnown r.now.graph (env_in r.now) y.exp.value y.to) }
{
    let exp = boxed(r.alloc(), constant(kind, n))?;
    Ok(Operand { exp, to: None })
}

/// A place in an expression, which is an array's start.
#[tactic(auto, using(crate::proofs::PartsLaws::chosen_start, crate::proofs::PartsLaws::known_start))]
fn with_start(r: &Reader, located: Located) -> Result<Operand, Memory>
    requires place { PlaceKnown r.now.graph (env_in r.now) located.place located.ty }
    requires array { is_array_type (type_in r.now.graph.nodes located.ty) ≡ true }
    ensures tree { IfOk result (λ y. exp_of r.now.graph.nodes y.exp.value ≡ chosen (env_in r.now) (lval_of r.now.graph.nodes located.place)) }
    ensures known { IfOk result (λ y. ExpKnown r.now.graph (env_in r.now) y.exp.value y.to) }
{
    let to = r.element(located.ty);
    let exp = boxed(r.alloc(), start(located.place))?;
    Ok(Operand { exp, to })
}

/// A place in an expression, which has its value.
#[tactic(auto, using(crate::proofs::PartsLaws::chosen_value, crate::proofs::PartsLaws::known_value))]
fn with_value(r: &Reader, located: Located) -> Result<Operand, Memory>
    requires place { PlaceKnown r.now.graph (env_in r.now) located.place located.ty }
    requires other { is_array_type (type_in r.now.graph.nodes located.ty) ≡ false }
    ensures tree { IfOk result (λ y. exp_of r.now.graph.nodes y.exp.value ≡ chosen (env_in r.now) (lval_of r.now.graph.nodes located.place)) }
    ensures known { IfOk result (λ y. ExpKnown r.now.graph (env_in r.now) y.exp.value y.to) }
{
    let to = r.pointed(located.ty);
    let exp = boxed(r.alloc(), value(located.place))?;
    Ok(Operand { exp, to })
}

/// A place as an expression: the start of an array, else its value (C11 6.3.2.1p2, p3).
pub(crate) fn chosen(r: &Reader, located: Located) -> Result<Operand, Memory>
    requires { PlaceKnown r.now.graph (env_in r.now) located.place located.ty }
    ensures tree { IfOk result (λ y. exp_of r.now.graph.nodes y.exp.value ≡ chosen (env_in r.now) (lval_of r.now.graph.nodes located.place)) }
    ensures known { IfOk result (λ y. ExpKnown r.now.graph (env_in r.now) y.exp.value y.to) }
{
    if r.is_array(located.ty) {
        return with_start(r, located);
    }
    with_value(r, located)
}

/// A unary operator on an operand.
#[tactic(auto, using(crate::proofs::PartsLaws::un_tree, crate::proofs::PartsLaws::known_un))]
pub(crate) fn with_unary(r: &Reader, op: UnOp, x: Operand) -> Result<Operand, Memory>
    requires { ExpKnown r.now.graph (env_in r.now) x.exp.value x.to }
    ensures tree { IfOk result (λ y. exp_of r.now.graph.nodes y.exp.value ≡ Un op (exp_of r.now.graph.nodes x.exp.value)) }
    ensures known { IfOk result (λ y. ExpKnown r.now.graph (env_in r.now) y.exp.value y.to) }
{
    let exp = boxed(r.alloc(), unary(op, x.exp))?;
    Ok(Operand { exp, to: None })
}

/// A binary operator between operands.
#[tactic(auto, using(crate::proofs::PartsLaws::bin_tree, crate::proofs::PartsLaws::known_bin))]
pub(crate) fn with_binary(r: &Reader, op: BinOp, x: Operand, y: Operand) -> Result<Operand, Memory>
    requires left { ExpKnown r.now.graph (env_in r.now) x.exp.value x.to }
    requires right { ExpKnown r.now.graph (env_in r.now) y.exp.value y.to }
    ensures tree { IfOk result (λ z. exp_of r.now.graph.nodes z.exp.value ≡ Bin op (exp_of r.now.graph.nodes x.exp.value) (exp_of r.now.graph.nodes y.exp.value)) }
    ensures known { IfOk result (λ z. ExpKnown r.now.graph (env_in r.now) z.exp.value z.to) }
{
    let to = moved(op, x.to, y.to);
    let exp = boxed(r.alloc(), binary(op, x.exp, y.exp))?;
    Ok(Operand { exp, to })
}

/// A conversion of an operand.
#[tactic(auto, using(crate::proofs::PartsLaws::cast_shape, crate::proofs::PartsLaws::known_cast))]
pub(crate) fn with_cast(r: &Reader, to: TypeId, x: Operand) -> Result<Operand, Memory>
    requires there { to.0 < length r.now.graph.nodes }
    requires operand { ExpKnown r.now.graph (env_in r.now) x.exp.value x.to }
    ensures tree { IfOk result (λ y. exp_of r.now.graph.nodes y.exp.value ≡ Cast (Some (shape r.now.graph.nodes to.0)) (exp_of r.now.graph.nodes x.exp.value)) }
    ensures known { IfOk result (λ y. ExpKnown r.now.graph (env_in r.now) y.exp.value y.to) }
{
    let pointee = r.pointed(Some(to));
    let exp = boxed(r.alloc(), cast(to, x.exp))?;
    Ok(Operand { exp, to: pointee })
}

/// The address of a place.
#[tactic(auto, using(crate::proofs::PartsLaws::address_tree, crate::proofs::PartsLaws::known_address))]
pub(crate) fn with_address(r: &Reader, x: Located) -> Result<Operand, Memory>
    requires { PlaceKnown r.now.graph (env_in r.now) x.place x.ty }
    ensures tree { IfOk result (λ y. exp_of r.now.graph.nodes y.exp.value ≡ AddrOf (lval_of r.now.graph.nodes x.place)) }
    ensures known { IfOk result (λ y. ExpKnown r.now.graph (env_in r.now) y.exp.value y.to) }
{
    let to = x.ty;
    let exp = boxed(r.alloc(), address(x.place))?;
    Ok(Operand { exp, to })
}

/// What a pointer points to, as the beginning of a place.
#[tactic(auto, using(crate::proofs::PartsLaws::at_tree, crate::proofs::PartsLaws::known_at))]
pub(crate) fn with_pointer(r: &Reader, x: Operand) -> Based
    requires { ExpKnown r.now.graph (env_in r.now) x.exp.value x.to }
    ensures tree { host_of r.now.graph.nodes result.host ≡ At (exp_of r.now.graph.nodes x.exp.value) }
    ensures known { HostKnown r.now.graph (env_in r.now) result.host result.ty }
{
    let ty = x.to;
    let host = at(x.exp);
    Based { host, ty }
}

/// A place without steps into a part.
#[tactic(auto, using(crate::proofs::PartsLaws::base_tree, crate::proofs::PartsLaws::known_base))]
pub(crate) fn with_base(r: &Reader, x: Based) -> Located
    requires { HostKnown r.now.graph (env_in r.now) x.host x.ty }
    ensures tree { lval_of r.now.graph.nodes result.place ≡ Place (host_of r.now.graph.nodes x.host) Here }
    ensures ty { result.ty ≡ x.ty }
    ensures known { PlaceKnown r.now.graph (env_in r.now) result.place result.ty }
{
    let ty = x.ty;
    let place = whole(r.alloc(), x.host);
    Located { place, ty }
}

/// Steps from a place into a member.
#[tactic(auto, using(crate::proofs::PartsLaws::field_tree, crate::proofs::PartsLaws::known_field))]
pub(crate) fn step_to_member(
    r: &Reader,
    x: &mut Located,
    number: u32,
    ty: TypeId,
) -> Result<(), Memory>
    requires place { PlaceKnown r.now.graph (env_in r.now) x.old.place x.old.ty }
    requires named { type_of_named (fields (env_in r.now) (type_in r.now.graph.nodes x.old.ty)) number ≡ Some (shape r.now.graph.nodes ty.0) }
    requires there { ty.0 < length r.now.graph.nodes }
    ensures tree { OnOk result (lval_of r.now.graph.nodes x.new.place ≡ part_of (lval_of r.now.graph.nodes x.old.place) (Field number Here)) }
    ensures ty { OnOk result (x.new.ty ≡ Some ty) }
    ensures known { OnOk result (PlaceKnown r.now.graph (env_in r.now) x.new.place x.new.ty) }
{
    add_field(&mut x.place, number)?;
    x.ty = Some(ty);
    Ok(())
}

/// Steps from a place into an element.
#[tactic(auto, using(crate::proofs::PartsLaws::element_tree, crate::proofs::PartsLaws::known_element))]
pub(crate) fn step_to_element(r: &Reader, x: &mut Located, index: Operand) -> Result<(), Memory>
    requires place { PlaceKnown r.now.graph (env_in r.now) x.old.place x.old.ty }
    requires index { ExpKnown r.now.graph (env_in r.now) index.exp.value index.to }
    ensures tree { OnOk result (lval_of r.now.graph.nodes x.new.place ≡ part_of (lval_of r.now.graph.nodes x.old.place) (Index (exp_of r.now.graph.nodes index.exp.value) Here)) }
    ensures ty { OnOk result (type_in r.now.graph.nodes x.new.ty ≡ option_and_then element_of (type_in r.now.graph.nodes x.old.ty)) }
    ensures known { OnOk result (PlaceKnown r.now.graph (env_in r.now) x.new.place x.new.ty) }
{
    let ty = r.element(x.ty);
    add_element(&mut x.place, index.exp)?;
    x.ty = ty;
    Ok(())
}
