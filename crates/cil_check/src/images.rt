ghost use Rattle.std.specs.Prelude.{◌≡◌, ◌<◌, ◌+◌, ◌&&◌, IfSome, length, map, drop};
ghost use Rattle.std.specs.List.{list_all};
ghost use Rattle.type_graph.specs.Shapes.{shape};
ghost use Rattle.type_graph.specs.Arena.{Graph};
ghost use Rattle.layout_lp64.specs.Tables.{InStep};
ghost use Rattle.cil_tree.specs.View.{program_of, item_of};
ghost use Rattle.cil_tree.specs.Globals.{number_fits, is_object, address_fits, constant_fits, item_fits, item_offset, is_below, are_rising, unions_agree, image_fits, is_nonempty};
ghost use Rattle.cil_tree.specs.Text.{is_function_type};
ghost use Rattle.cil_tree.specs.Typing.{global_type};
ghost use Rattle.cil_check.specs.Seen.{at, seen_shape, IsThere};
ghost use Rattle.cil_check.specs.Paths.{is_pointer, scalar_has, adjacent_agree, ScalarsRise};

use crate::expressions::number_at;
use crate::operators::{is_function, is_scalar, names_enum};
use crate::paths::{agree, path_part};
use crate::seen::{Seen, see};
use cil_base::{Constant, EntityId, IntKind, NamePool, TypeId};
use cil_tree::{CilUnit, ImageItem};
use layout_lp64::Layouts;
use type_graph::{Node, TypeGraph};

/// Whether an integer constant has the kind of its place, is a value of it, and is not zero.
fn number_fits(place: IntKind, kind: IntKind, v: i128) -> bool
    ensures { result ≡ number_fits place kind v }
{
    kind == place && kind.fits(v) && v != 0
}

/// The type of a global, if there is one with the number.
fn type_of_global(u: &CilUnit, names: &NamePool, number: EntityId) -> Option<TypeId>
    ensures told { at u.now.graph result ≡ global_type (program_of names.now u.now) number.0 }
    ensures there { IfSome result (λ t. t.0 < length u.now.graph.nodes) }
{
    let global = u.globals.get(number.0 as usize)?;
    number_at(&u.graph, global.ty)
}

/// Whether a number is that of an object.
fn is_object(u: &CilUnit, names: &NamePool, number: EntityId) -> bool
    ensures { result ≡ is_object (program_of names.now u.now) number.0 }
{
    match type_of_global(u, names, number) {
        None => false,
        Some(t) => !is_function(&u.graph, t),
    }
}

/// Whether a number is that of a function.
fn names_function(u: &CilUnit, names: &NamePool, number: EntityId) -> bool
    ensures { result ≡ is_function_type (global_type (program_of names.now u.now) number.0) }
{
    match type_of_global(u, names, number) {
        None => false,
        Some(t) => is_function(&u.graph, t),
    }
}

/// Whether an address names an object, with an offset from 0 to 2147483647.
fn address_fits(u: &CilUnit, names: &NamePool, object: EntityId, at: i64) -> bool
    ensures { result ≡ address_fits (program_of names.now u.now) object.0 at }
{
    is_object(u, names, object) && at >= 0 && at < 0x8000_0000
}

/// Whether an integer constant fits a type that is neither a kind nor a pointer: an enum's is an int.
fn enum_number_fits(u: &CilUnit, names: &NamePool, t: TypeId, kind: IntKind, v: i128) -> bool
    requires { IsThere u.now.graph (Seen.Other t) }
    ensures { result ≡ constant_fits (program_of names.now u.now) (shape u.now.graph.nodes t.0) (Constant.Int kind v) }
{
    match u.graph.node(t) {
        Node::Agg(a) => names_enum(&u.graph, *a) && number_fits(IntKind::Int, kind, v),
        Node::Void | Node::Int(_) | Node::Ptr(_) | Node::Array(..) | Node::Func { .. } => false,
    }
}

/// Whether an integer constant is one of its place: of the kind, of `unsigned long` for a pointer, of int for an enum.
fn integer_fits(u: &CilUnit, names: &NamePool, t: Seen, kind: IntKind, v: i128) -> bool
    requires { IsThere u.now.graph t }
    ensures { result ≡ constant_fits (program_of names.now u.now) (seen_shape u.now.graph t) (Constant.Int kind v) }
{
    match t {
        Seen::Int(place) => number_fits(place, kind, v),
        Seen::Ptr(_) => number_fits(u.graph.abi().ulong(), kind, v),
        Seen::Other(t) => enum_number_fits(u, names, t, kind, v),
    }
}

/// Whether a type that is seen is a pointer.
fn is_pointer(t: Seen) -> bool
    ensures { (g : Graph) → IsThere g t → result ≡ is_pointer (seen_shape g t) }
{
    match t {
        Seen::Ptr(_) => true,
        Seen::Int(_) | Seen::Other(_) => false,
    }
}

/// Whether a constant is one of the type of its place.
#[tactic(auto, using(crate::proofs::ImageSteps::address_is, crate::proofs::ImageSteps::code_is))]
fn constant_fits(u: &CilUnit, names: &NamePool, t: Seen, value: Constant) -> bool
    requires { IsThere u.now.graph t }
    ensures { result ≡ constant_fits (program_of names.now u.now) (seen_shape u.now.graph t) value }
{
    match value {
        Constant::Int(kind, v) => integer_fits(u, names, t, kind, v),
        Constant::Address(object, at) => is_pointer(t) && address_fits(u, names, object, at),
        Constant::Function(function) => is_pointer(t) && names_function(u, names, function),
    }
}

/// Whether a constant is one of a scalar type.
fn scalar_fits(u: &CilUnit, names: &NamePool, t: TypeId, value: Constant) -> bool
    requires { t.0 < length u.now.graph.nodes }
    ensures { result ≡ scalar_has (program_of names.now u.now) (shape u.now.graph.nodes t.0) value }
{
    let seen = see(&u.graph, t);
    is_scalar(&u.graph, seen) && constant_fits(u, names, seen, value)
}

/// Whether a path leads to a scalar, of whose type the constant is.
#[tactic(auto, using(crate::proofs::ImageSteps::item_none, crate::proofs::ImageSteps::item_some))]
fn item_fits(u: &CilUnit, names: &NamePool, l: &Layouts, t: TypeId, item: &ImageItem) -> bool
    requires step { InStep l.now u.now.graph }
    requires there { t.0 < length u.now.graph.nodes }
    ensures { result ≡ item_fits (program_of names.now u.now) (shape u.now.graph.nodes t.0) (item_of item.now) }
{
    match path_part(&u.graph, l, t, &item.path) {
        None => false,
        Some(part) => scalar_fits(u, names, part.ty, item.value),
    }
}

/// Whether each item of an image fits.
#[tactic(auto, using(crate::proofs::BodySteps::each_from))]
fn items_fit(u: &CilUnit, names: &NamePool, l: &Layouts, t: TypeId, items: &[ImageItem]) -> bool
    requires step { InStep l.now u.now.graph }
    requires there { t.0 < length u.now.graph.nodes }
    ensures { result ≡ list_all (item_fits (program_of names.now u.now) (shape u.now.graph.nodes t.0)) (map item_of items.now) }
{
    for i in 0..items.len() {
        if !item_fits(u, names, l, t, &items[i]) {
            return false;
        }
    }
    true
}

/// The offset of an item, if its path leads to a part.
#[tactic(auto, using(crate::proofs::ImageSteps::offset_none, crate::proofs::ImageSteps::offset_some))]
fn item_offset(g: &TypeGraph, l: &Layouts, t: TypeId, item: &ImageItem) -> Option<u128>
    requires step { InStep l.now g.now }
    requires there { t.0 < length g.now.nodes }
    ensures { result ≡ item_offset g.now (shape g.now.nodes t.0) (item_of item.now) }
{
    match path_part(g, l, t, &item.path) {
        None => None,
        Some(part) => Some(part.at),
    }
}

/// Whether there are two offsets, and the first is less.
fn is_below(first: Option<u128>, second: Option<u128>) -> bool
    ensures { result ≡ is_below first second }
{
    match (first, second) {
        (Some(m), Some(n)) => m < n,
        (None, _) => false,
        (Some(_), None) => false,
    }
}

/// Whether an item's offset is below that of the next, if there is one.
#[tactic(auto, using(crate::proofs::ImageSteps::rising_next, crate::proofs::ImageSteps::rising_last))]
fn rises(g: &TypeGraph, l: &Layouts, t: TypeId, items: &[ImageItem], i: usize) -> bool
    requires step { InStep l.now g.now }
    requires there { t.0 < length g.now.nodes }
    requires within { i < length items.now }
    ensures { are_rising (map (item_offset g.now (shape g.now.nodes t.0)) (map item_of (drop i items.now))) ≡ (result && are_rising (map (item_offset g.now (shape g.now.nodes t.0)) (map item_of (drop (i + 1) items.now)))) }
{
    if i + 1 >= items.len() {
        return true;
    }
    let this = item_offset(g, l, t, &items[i]);
    is_below(this, item_offset(g, l, t, &items[i + 1]))
}

/// Whether the offsets of an image's items rise.
fn are_rising(g: &TypeGraph, l: &Layouts, t: TypeId, items: &[ImageItem]) -> bool
    requires step { InStep l.now g.now }
    requires there { t.0 < length g.now.nodes }
    ensures { result ≡ are_rising (map (item_offset g.now (shape g.now.nodes t.0)) (map item_of items.now)) }
{
    for i in 0..items.len() {
        if !rises(g, l, t, items, i) {
            return false;
        }
    }
    true
}

/// Whether the path of an item agrees with that of the next at unions, if there is one.
#[tactic(auto, using(crate::proofs::UnionLaws::adjacent_next, crate::proofs::UnionLaws::adjacent_last))]
fn agrees_with_next(g: &TypeGraph, t: TypeId, items: &[ImageItem], i: usize) -> bool
    requires there { t.0 < length g.now.nodes }
    requires within { i < length items.now }
    ensures { adjacent_agree g.now (shape g.now.nodes t.0) (map item_of (drop i items.now)) ≡ (result && adjacent_agree g.now (shape g.now.nodes t.0) (map item_of (drop (i + 1) items.now))) }
{
    if i + 1 >= items.len() {
        return true;
    }
    agree(g, t, &items[i].path, &items[i + 1].path)
}

/// Whether each path of an image agrees with the next at unions.
fn adjacent_agree(g: &TypeGraph, t: TypeId, items: &[ImageItem]) -> bool
    requires { t.0 < length g.now.nodes }
    ensures { result ≡ adjacent_agree g.now (shape g.now.nodes t.0) (map item_of items.now) }
{
    for i in 0..items.len() {
        if !agrees_with_next(g, t, items, i) {
            return false;
        }
    }
    true
}

/// Whether of each union one member is initialised. Paths that agree at unions and lead to scalars whose offsets rise
/// stand in order, so comparing each path with the next tells it of all.
#[tactic(auto, using(crate::proofs::OrderLaws::adjacent_is))]
pub fn unions_agree(g: &TypeGraph, t: TypeId, items: &[ImageItem]) -> bool
    requires there { t.0 < length g.now.nodes }
    requires rise { ScalarsRise g.now (shape g.now.nodes t.0) (map item_of items.now) }
    ensures { result ≡ unions_agree g.now (shape g.now.nodes t.0) (map item_of items.now) }
{
    // What is known of an arena is known where it is read.
    let _types = g.len();
    adjacent_agree(g, t, items)
}

/// Whether there is an item.
fn is_nonempty(items: &[ImageItem]) -> bool
    ensures { result ≡ is_nonempty (map item_of items.now) }
{
    match items {
        [] => false,
        [_, ..] => true,
    }
}

/// Whether an image may be of a type: it has an item, its items fit, their offsets rise, and of each union one member
/// is initialised.
pub(crate) fn image_fits(
    u: &CilUnit,
    names: &NamePool,
    l: &Layouts,
    t: TypeId,
    items: &[ImageItem],
) -> bool
    requires step { InStep l.now u.now.graph }
    requires there { t.0 < length u.now.graph.nodes }
    ensures { result ≡ image_fits (program_of names.now u.now) (shape u.now.graph.nodes t.0) (map item_of items.now) }
{
    is_nonempty(items)
        && items_fit(u, names, l, t, items)
        && are_rising(&u.graph, l, t, items)
        && unions_agree(&u.graph, t, items)
}
