ghost use Rattle.std.specs.Prelude.{◌≡◌, ◌<◌, IfOk, OnOk, IfSome, Some, length, map};
ghost use Rattle.std.specs.Option.{option_map, option_and_then};
ghost use Rattle.type_graph.specs.Shapes.{shape};
ghost use Rattle.cil_tree.specs.View.{step_of, item_of};
ghost use Rattle.cil_text.specs.ReadStmts.{read_number};
ghost use Rattle.cil_text.specs.ReadExps.{host_named};
ghost use Rattle.cil_text.specs.ReadImages.{integer_of, integer_as, only_global, function_named, offset_at, read_path, read_address, read_pointer, read_converted, read_constant, read_item, read_items, only_item, read_image};
ghost use Rattle.cil_scan.specs.Said.{all_said};
ghost use Rattle.cil_declarators.specs.Gives.{Gives};
ghost use Rattle.cil_reader.specs.Settings.{Onward, env_in, type_in, TypeBelow};
ghost use Rattle.cil_reader.specs.Images.{path_step, path_more, path_of, items_of, item_more, offset_in, converted_from, constant_of};

use crate::reader::{Reader, Scalar};
use crate::typed::read_typed;
use cil_base::{BinOp, Constant, EntityId, IntKind, TypeId};
use cil_declarators::Stop;
use cil_forms::{assigned, behind_item, closing, is_brace, skip_one};
use cil_numbers::read_number;
use cil_scan::Word;
use cil_tree::{Host, ImageItem, Step};

/// A path to a part of an object, the type of the place that it leads to, what stands behind it, and whether `=` was
/// read there.
#[derive(Drop)]
struct Path<'w, 'a> {
    steps: Vec<Step>,
    ty: Option<TypeId>,
    rest: &'w [Word<'a>],
    ended: bool,
}

/// A step of a path, and the type of the place that it leads to.
#[derive(Clone, Copy)]
struct Stepped {
    step: Step,
    ty: Option<TypeId>,
}

/// Items that were read, what stands behind them, and whether the list ended there.
#[derive(Drop)]
struct Items<'w, 'a> {
    all: Vec<ImageItem>,
    rest: &'w [Word<'a>],
    closed: bool,
}

/// A step from a place of a type (C11 6.7.9p6).
fn one_step<'w, 'a>(
    r: &Reader,
    ty: Option<TypeId>,
    words: &'w [Word<'a>],
) -> Option<(Stepped, &'w [Word<'a>])>
    requires { TypeBelow (length r.now.graph.nodes) ty }
    ensures is { option_map (λ x. ((step_of x.0.step, type_in r.now.graph.nodes x.0.ty), all_said x.1.now)) result ≡ path_step (env_in r.now) (type_in r.now.graph.nodes ty) (all_said words.now) }
    ensures below { IfSome result (λ x. TypeBelow (length r.now.graph.nodes) x.0.ty) }
{
    match words {
        [Word::Dot, Word::Name(name), rest @ ..] => {
            let found = r.field(ty, name)?;
            let step = Step::Field(found.0);
            let ty = Some(found.1);
            Some((Stepped { step, ty }, rest))
        }
        [
            Word::LeftBracket,
            Word::Number(_, n),
            Word::RightBracket,
            rest @ ..,
        ] => {
            let step = Step::Index(*n);
            let ty = r.element(ty);
            Some((Stepped { step, ty }, rest))
        }
        _ => None,
    }
}

/// One step more, or the `=` behind a path.
#[tactic(auto, using(crate::proofs::ImageLaws::path_ended, crate::proofs::ImageLaws::path_open, crate::proofs::ImageLaws::path_stepped))]
fn step_on<'w, 'a>(r: &Reader, path: Path<'w, 'a>) -> Result<Path<'w, 'a>, Stop>
    requires { TypeBelow (length r.now.graph.nodes) path.ty }
    ensures gives { Gives (λ x. path_of r.now.graph.nodes x) result (path_more (env_in r.now) (map step_of path.entry.steps.items) (type_in r.now.graph.nodes path.entry.ty) (all_said path.entry.rest.now)) }
    ensures below { IfOk result (λ x. TypeBelow (length r.now.graph.nodes) x.ty) }
{
    let mut steps = path.steps;
    let ty = path.ty;
    if let Some(rest) = assigned(path.rest) {
        let ended = true;
        return Ok(Path {
            steps,
            ty,
            rest,
            ended,
        });
    }
    let Some((stepped, rest)) = one_step(r, ty, path.rest) else {
        return Err(Stop::NotCil);
    };
    steps.push(stepped.step)?;
    Ok(Path {
        steps,
        ty: stepped.ty,
        rest,
        ended: false,
    })
}

/// The steps up to `=` from a place of a type. Their number is bounded.
#[tactic(auto, using(crate::proofs::ImageLaws::path_start, crate::proofs::ImageLaws::path_over, crate::proofs::ImageLaws::path_closed))]
fn read_path<'w, 'a>(
    r: &Reader,
    left: u32,
    ty: TypeId,
    words: &'w [Word<'a>],
) -> Result<Path<'w, 'a>, Stop>
    requires { ty.0 < length r.now.graph.nodes }
    ensures gives { Gives (λ x. ((map step_of x.steps.items, type_in r.now.graph.nodes x.ty), all_said x.rest.now)) result (read_path (env_in r.now) left (Some (shape r.now.graph.nodes ty.0)) (all_said words.now)) }
    ensures below { IfOk result (λ x. TypeBelow (length r.now.graph.nodes) x.ty) }
{
    let mut path = Path {
        steps: Vec::new(r.alloc()),
        ty: Some(ty),
        rest: words,
        ended: false,
    };
    let mut turns = left;
    while turns > 0 && !path.ended {
        path = step_on(r, path)?;
        turns -= 1;
    }
    if !path.ended {
        return Err(Stop::NotCil);
    }
    Ok(path)
}

/// A number as a value of a kind, however it is spelled.
fn integer<'w, 'a>(kind: IntKind, words: &'w [Word<'a>]) -> Option<(Constant, &'w [Word<'a>])>
    ensures { option_map (λ x. (x.0, all_said x.1.now)) result ≡ option_map (integer_of kind) (read_number (all_said words.now)) }
{
    let (number, rest) = read_number(words)?;
    Some((Constant::Int(kind, number.value), rest))
}

/// A number of the kind that it is spelled with.
fn own_integer<'w, 'a>(r: &Reader, words: &'w [Word<'a>]) -> Option<(Constant, &'w [Word<'a>])>
    ensures { option_map (λ x. (x.0, all_said x.1.now)) result ≡ option_map (integer_as (env_in r.now).abi) (read_number (all_said words.now)) }
{
    let (number, rest) = read_number(words)?;
    let kind = r.kind(number.kind);
    Some((Constant::Int(kind, number.value), rest))
}

/// The global that a name means.
fn global_named(r: &Reader, name: &[u8]) -> Option<EntityId>
    ensures { option_map (λ g. g.0) result ≡ only_global (host_named (env_in r.now) name.now) }
{
    let based = r.host_named(name)?;
    match based.host {
        Host::Global(n) => Some(n),
        Host::Var(_) | Host::At(_) => None,
    }
}

/// Behind `&`: the name of a function (C11 6.6p9).
fn function_named<'w, 'a>(r: &Reader, words: &'w [Word<'a>]) -> Option<(Constant, &'w [Word<'a>])>
    ensures { option_map (λ x. (x.0, all_said x.1.now)) result ≡ function_named (env_in r.now) (all_said words.now) }
{
    match words {
        [Word::Name(name), rest @ ..] => Some((Constant::Function(global_named(r, name)?), rest)),
        _ => None,
    }
}

/// The offset that a number is, if an address may have it: a value of `long`.
#[tactic(auto, using(crate::proofs::ImageLaws::offset_below, crate::proofs::ImageLaws::offset_above))]
fn offset_of(r: &Reader, value: i128) -> Option<i64>
    ensures { result ≡ offset_in (env_in r.now).abi value }
{
    if value < i64::MIN as i128 {
        return None;
    }
    if value > i64::MAX as i128 {
        return None;
    }
    if !r.long().fits(value) {
        return None;
    }
    Some(value as i64)
}

/// Behind `+`: an address's offset from the beginning of an object, and `)`.
#[tactic(auto, using(crate::proofs::ImageLaws::address_gives, crate::proofs::ImageLaws::address_far, crate::proofs::ImageLaws::address_fails))]
fn address_in<'w, 'a>(
    r: &Reader,
    object: EntityId,
    words: &'w [Word<'a>],
) -> Option<(Constant, &'w [Word<'a>])>
    ensures { option_map (λ x. (x.0, all_said x.1.now)) result ≡ option_and_then (offset_at (env_in r.now).abi object.0) (read_number (all_said words.now)) }
{
    let (number, rest) = read_number(words)?;
    let behind = closing(rest)?;
    let offset = offset_of(r, number.value)?;
    Some((Constant::Address(object, offset), behind))
}

/// Behind a `(`: an address in an object (C11 6.6p9).
fn read_address<'w, 'a>(r: &Reader, words: &'w [Word<'a>]) -> Option<(Constant, &'w [Word<'a>])>
    ensures { option_map (λ x. (x.0, all_said x.1.now)) result ≡ read_address (env_in r.now) (all_said words.now) }
{
    match words {
        [
            Word::LeftParen,
            Word::CharWord,
            Word::Operator(BinOp::Mul),
            Word::RightParen,
            Word::Operator(BinOp::And),
            Word::Name(name),
            Word::Operator(BinOp::Add),
            rest @ ..,
        ] => address_in(r, global_named(r, name)?, rest),
        _ => None,
    }
}

/// Behind the conversion to a pointer's type.
fn read_pointer<'w, 'a>(r: &Reader, words: &'w [Word<'a>]) -> Option<(Constant, &'w [Word<'a>])>
    ensures { option_map (λ x. (x.0, all_said x.1.now)) result ≡ read_pointer (env_in r.now) (all_said words.now) }
{
    match words {
        [Word::LeftParen, rest @ ..] => read_address(r, rest),
        [Word::Operator(BinOp::And), rest @ ..] => function_named(r, rest),
        _ => own_integer(r, words),
    }
}

/// What is there, or no CIL.
fn there<'w, 'a>(
    found: Option<(Constant, &'w [Word<'a>])>,
) -> Result<(Constant, &'w [Word<'a>]), Stop>
    ensures { Gives (λ x. constant_of x) result (option_map constant_of found.entry) }
{
    match found {
        Some(value) => Ok(value),
        None => Err(Stop::NotCil),
    }
}

/// Behind the `(` of a conversion: the type of the place, which is a pointer's, `)` and the pointer's value.
fn read_converted<'w, 'a>(
    r: &mut Reader,
    left: u32,
    ty: TypeId,
    words: &'w [Word<'a>],
) -> Result<(Constant, &'w [Word<'a>]), Stop>
    requires { ty.0 < length r.old.graph.nodes }
    ensures gives { Gives (λ x. (x.0, all_said x.1.now)) result (converted_from (env_in r.old) left (shape r.old.graph.nodes ty.0) (all_said words.now)) }
    ensures same { OnOk result (r.new.graph.nodes ≡ r.old.graph.nodes) }
    ensures on { Onward r.old r.new }
{
    let rest = read_typed(r, left, ty, words)?;
    match closing(rest) {
        Some(behind) => there(read_pointer(r, behind)),
        None => Err(Stop::NotCil),
    }
}

/// The value of a pointer of a type.
#[tactic(auto, using(crate::proofs::OnwardLaws::onward_none))]
fn pointer_value<'w, 'a>(
    r: &mut Reader,
    left: u32,
    ty: TypeId,
    words: &'w [Word<'a>],
) -> Result<(Constant, &'w [Word<'a>]), Stop>
    requires { ty.0 < length r.old.graph.nodes }
    ensures gives { Gives (λ x. (x.0, all_said x.1.now)) result (read_converted (env_in r.old) left (shape r.old.graph.nodes ty.0) (all_said words.now)) }
    ensures same { OnOk result (r.new.graph.nodes ≡ r.old.graph.nodes) }
    ensures on { Onward r.old r.new }
{
    match words {
        [Word::LeftParen, rest @ ..] => read_converted(r, left, ty, rest),
        _ => Err(Stop::NotCil),
    }
}

/// The value of a scalar of a type.
#[tactic(auto, using(crate::proofs::ImageLaws::scalar_int, crate::proofs::ImageLaws::scalar_pointer, crate::proofs::ImageLaws::scalar_other, crate::proofs::OnwardLaws::onward_none))]
fn read_constant<'w, 'a>(
    r: &mut Reader,
    left: u32,
    ty: TypeId,
    words: &'w [Word<'a>],
) -> Result<(Constant, &'w [Word<'a>]), Stop>
    requires { ty.0 < length r.old.graph.nodes }
    ensures gives { Gives (λ x. (x.0, all_said x.1.now)) result (read_constant (env_in r.old) left (Some (shape r.old.graph.nodes ty.0)) (all_said words.now)) }
    ensures same { OnOk result (r.new.graph.nodes ≡ r.old.graph.nodes) }
    ensures on { Onward r.old r.new }
{
    match r.scalar(ty) {
        Scalar::Int(kind) => there(integer(kind, words)),
        Scalar::Pointer => pointer_value(r, left, ty, words),
        Scalar::Other => Err(Stop::NotCil),
    }
}

/// A path and its value.
#[tactic(auto, using(crate::proofs::ImageLaws::item_gives, crate::proofs::ImageLaws::item_typeless, crate::proofs::ImageLaws::item_valueless, crate::proofs::ImageLaws::item_fails, crate::proofs::OnwardLaws::onward_none))]
fn read_item<'w, 'a>(
    r: &mut Reader,
    left: u32,
    ty: TypeId,
    words: &'w [Word<'a>],
) -> Result<(ImageItem, &'w [Word<'a>]), Stop>
    requires { ty.0 < length r.old.graph.nodes }
    ensures gives { Gives (λ x. (item_of x.0, all_said x.1.now)) result (read_item (env_in r.old) left (Some (shape r.old.graph.nodes ty.0)) (all_said words.now)) }
    ensures same { OnOk result (r.new.graph.nodes ≡ r.old.graph.nodes) }
    ensures on { Onward r.old r.new }
{
    let path = read_path(r, left, ty, words)?;
    let Some(at) = path.ty else {
        return Err(Stop::NotCil);
    };
    let (value, behind) = read_constant(r, left, at, path.rest)?;
    let path = path.steps;
    Ok((ImageItem { path, value }, behind))
}

/// One item more.
#[tactic(auto, using(crate::proofs::ImageLaws::item_end, crate::proofs::ImageLaws::item_open, crate::proofs::ImageLaws::item_none))]
fn one_item<'w, 'a>(
    r: &mut Reader,
    left: u32,
    ty: TypeId,
    items: Items<'w, 'a>,
) -> Result<Items<'w, 'a>, Stop>
    requires { ty.0 < length r.old.graph.nodes }
    ensures gives { Gives (λ x. items_of x) result (item_more (map item_of items.entry.all.items) (read_item (env_in r.old) left (Some (shape r.old.graph.nodes ty.0)) (all_said items.entry.rest.now))) }
    ensures same { OnOk result (r.new.graph.nodes ≡ r.old.graph.nodes) }
    ensures on { Onward r.old r.new }
{
    let (item, after) = read_item(r, left, ty, items.rest)?;
    let mut all = items.all;
    all.push(item)?;
    match behind_item(after) {
        Some((closed, rest)) => Ok(Items { all, rest, closed }),
        None => Err(Stop::NotCil),
    }
}

/// Behind `{`: items up to `}`.
#[tactic(auto, using(crate::proofs::ImageLaws::items_start, crate::proofs::ImageLaws::items_over, crate::proofs::PartsLaws::there_later, crate::proofs::OnwardLaws::onward_twice, crate::proofs::OnwardLaws::onward_grows, crate::proofs::OnwardLaws::onward_none))]
fn read_items<'w, 'a>(
    r: &mut Reader,
    left: u32,
    ty: TypeId,
    words: &'w [Word<'a>],
) -> Result<(Vec<ImageItem>, &'w [Word<'a>]), Stop>
    requires { ty.0 < length r.old.graph.nodes }
    ensures gives { Gives (λ x. (map item_of x.0.items, all_said x.1.now)) result (read_items (env_in r.old) left left (Some (shape r.old.graph.nodes ty.0)) (all_said words.now)) }
    ensures same { OnOk result (r.new.graph.nodes ≡ r.old.graph.nodes) }
    ensures on { Onward r.old r.new }
{
    let mut items = Items {
        all: Vec::new(r.alloc()),
        rest: words,
        closed: false,
    };
    for step in 0..left {
        items = one_item(r, left, ty, items)?;
        if items.closed {
            return Ok((items.all, items.rest));
        }
    }
    Err(Stop::NotCil)
}

/// The one value of a scalar.
#[tactic(auto, using(crate::proofs::ImageLaws::only_gives, crate::proofs::ImageLaws::only_fails))]
fn only_value<'w, 'a>(
    r: &mut Reader,
    left: u32,
    ty: TypeId,
    words: &'w [Word<'a>],
) -> Result<(Vec<ImageItem>, &'w [Word<'a>]), Stop>
    requires { ty.0 < length r.old.graph.nodes }
    ensures gives { Gives (λ x. (map item_of x.0.items, all_said x.1.now)) result (option_map only_item (read_constant (env_in r.old) left (Some (shape r.old.graph.nodes ty.0)) (all_said words.now))) }
    ensures same { OnOk result (r.new.graph.nodes ≡ r.old.graph.nodes) }
    ensures on { Onward r.old r.new }
{
    let (value, rest) = read_constant(r, left, ty, words)?;
    let path = Vec::new(r.alloc());
    let mut items = Vec::new(r.alloc());
    items.push(ImageItem { path, value })?;
    Ok((items, rest))
}

/// Behind `=`: an object's scalars in braces, or the one value of a scalar (C11 6.7.9).
#[tactic(auto, using(crate::proofs::ImageLaws::image_braced, crate::proofs::ImageLaws::image_single))]
pub(crate) fn read_image<'w, 'a>(
    r: &mut Reader,
    left: u32,
    ty: TypeId,
    words: &'w [Word<'a>],
) -> Result<(Vec<ImageItem>, &'w [Word<'a>]), Stop>
    requires { ty.0 < length r.old.graph.nodes }
    ensures gives { Gives (λ x. (map item_of x.0.items, all_said x.1.now)) result (read_image (env_in r.old) left (Some (shape r.old.graph.nodes ty.0)) (all_said words.now)) }
    ensures same { OnOk result (r.new.graph.nodes ≡ r.old.graph.nodes) }
    ensures on { Onward r.old r.new }
{
    if is_brace(words) {
        return read_items(r, left, ty, skip_one(words));
    }
    only_value(r, left, ty, words)
}
