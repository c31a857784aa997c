ghost use Rattle.std.specs.Prelude.{◌≡◌, IfOk, IfSome, OnOk};
ghost use Rattle.type_graph.specs.Shapes.{shape};
ghost use Rattle.init_expand.specs.Images.{is_zero, HasNoZero, AreScalars, IsRising, IsImage};
ghost use Rattle.init_expand.specs.Spots.{RisesTo};

use crate::growing::{Growing, impossible, is_zero};
use crate::spots::{element, end, kind_of, part_at, plain_step};
use crate::sweep::{Event, Given, Placed, What, swept};
use cil_base::{Bytes, Constant, EntityId, IntKind, Memory, TypeId, wrap};
use cil_check::unions_agree;
use cil_tree::{GlobalDef, ImageItem, Step};
use std::alloc::Global;
use typed_tree::{InitStep, Path, TypedInit};
use unit_types::Types;

/// The object that is initialised: the unit's types, and its type.
#[derive(Clone, Copy)]
struct Object<'a> {
    types: &'a Types,
    ty: TypeId,
}

/// The steps of an initialiser, and the places that objects and functions have among the program's globals.
#[derive(Clone, Copy)]
struct Steps<'a> {
    all: &'a [InitStep],
    numbers: &'a [Option<EntityId>],
}

/// Adds what a step makes zero.
fn add_cleared(
    o: Object,
    number: usize,
    step: &InitStep,
    events: &mut Vec<Event>,
) -> Result<(), Memory> {
    let InitStep::Zero(path) = step else {
        return Ok(());
    };
    let Some(at) = part_at(o.types, o.ty, path) else {
        return Err(impossible());
    };
    let Some(to) = end(o.types, at) else {
        return Err(impossible());
    };
    events.push(Event {
        offset: at.offset,
        what: What::Cleared { step: number, to },
    })?;
    Ok(())
}

/// Adds a scalar that a step gives a value.
fn add_scalar(
    o: Object,
    number: usize,
    path: &Path,
    value: Constant,
    events: &mut Vec<Event>,
) -> Result<(), Memory> {
    let Some(at) = part_at(o.types, o.ty, path) else {
        return Err(impossible());
    };
    events.push(Event {
        offset: at.offset,
        what: What::Given(Given {
            step: number,
            element: None,
            value,
        }),
    })?;
    Ok(())
}

/// Adds the characters that a step gives the elements of an array.
fn add_bytes(
    o: Object,
    number: usize,
    path: &Path,
    bytes: &Bytes,
    events: &mut Vec<Event>,
) -> Result<(), Memory> {
    let Some(array) = part_at(o.types, o.ty, path) else {
        return Err(impossible());
    };
    let bytes = bytes.as_slice();
    for i in 0..bytes.len() {
        let Some(at) = element(o.types, array, i as u64) else {
            return Err(impossible());
        };
        let Some(kind) = kind_of(o.types, at.ty) else {
            return Err(impossible());
        };
        events.push(Event {
            offset: at.offset,
            what: What::Given(Given {
                step: number,
                element: Some(i as u64),
                value: Constant::Int(kind, wrap(kind, bytes[i] as i128)),
            }),
        })?;
    }
    Ok(())
}

/// Adds the scalars that a step gives values. In an object with static storage duration these are constants (C11 6.7.9p4).
fn add_given(
    o: Object,
    number: usize,
    step: &InitStep,
    events: &mut Vec<Event>,
) -> Result<(), Memory> {
    match step {
        InitStep::Zero(_) => Ok(()),
        InitStep::Constant(path, value) => add_scalar(o, number, path, *value, events),
        InitStep::Bytes(path, bytes) => add_bytes(o, number, path, bytes, events),
        InitStep::Scalar(..) | InitStep::Aggregate(..) => Err(impossible()),
    }
}

/// Adds all that steps make zero.
fn all_cleared(o: Object, steps: &[InitStep], events: &mut Vec<Event>) -> Result<(), Memory> {
    for i in 0..steps.len() {
        add_cleared(o, i, &steps[i], events)?;
    }
    Ok(())
}

/// Adds all scalars that steps give values.
fn all_given(o: Object, steps: &[InitStep], events: &mut Vec<Event>) -> Result<(), Memory> {
    for i in 0..steps.len() {
        add_given(o, i, &steps[i], events)?;
    }
    Ok(())
}

/// The place among a program's globals of an object or function of the typed unit.
fn number_in(numbers: &[Option<EntityId>], n: EntityId) -> Result<EntityId, Memory> {
    match numbers.get(n.0 as usize) {
        Some(Some(number)) => Ok(*number),
        Some(None) | None => Err(impossible()),
    }
}

/// A constant that names the program's globals.
fn numbered(numbers: &[Option<EntityId>], value: Constant) -> Result<Constant, Memory>
    ensures { IfOk result (λ c. is_zero c ≡ is_zero value) }
{
    match value {
        Constant::Int(..) => Ok(value),
        Constant::Address(n, offset) => Ok(Constant::Address(number_in(numbers, n)?, offset)),
        Constant::Function(n) => Ok(Constant::Function(number_in(numbers, n)?)),
    }
}

/// The steps of a path, with room for so many more.
fn path_of(alloc: Global, path: &[typed_tree::Step], more: usize) -> Result<Vec<Step>, Memory> {
    let mut steps = Vec::with_capacity(alloc, path.len().saturating_add(more))?;
    for step in path {
        steps.reserve(1)?;
        steps.push_reserved(plain_step(*step));
    }
    Ok(steps)
}

/// How many scalars steps give values at most.
fn most_scalars(steps: &[InitStep]) -> usize {
    let mut most = 0usize;
    for step in steps {
        most = most.saturating_add(match step {
            InitStep::Zero(_) => 0,
            InitStep::Bytes(_, bytes) => bytes.as_slice().len(),
            InitStep::Scalar(..) | InitStep::Constant(..) | InitStep::Aggregate(..) => 1,
        });
    }
    most
}

/// The path of the part that a step initialises.
fn part(steps: &[InitStep], number: usize) -> Result<&Path, Memory> {
    match steps.get(number) {
        Some(
            InitStep::Zero(path)
            | InitStep::Scalar(path, _)
            | InitStep::Constant(path, _)
            | InitStep::Aggregate(path, _)
            | InitStep::Bytes(path, _),
        ) => Ok(path),
        None => Err(impossible()),
    }
}

/// The path of a scalar that is given a value.
fn scalar_path(alloc: Global, steps: &[InitStep], given: Given) -> Result<Vec<Step>, Memory> {
    let part = part(steps, given.step)?;
    match given.element {
        Some(i) => {
            let mut path = path_of(alloc, part.as_slice(), 1)?;
            path.push(Step::Index(i))?;
            Ok(path)
        }
        None => path_of(alloc, part.as_slice(), 0),
    }
}

/// A scalar of an image, from what a step gives it.
fn item(alloc: Global, s: Steps, given: Given) -> Result<ImageItem, Memory>
    ensures { IfOk result (λ x. is_zero x.value ≡ is_zero given.value) }
{
    let value = numbered(s.numbers, given.value)?;
    let path = scalar_path(alloc, s.all, given)?;
    Ok(ImageItem { path, value })
}

/// Adds the scalar that a step gives a value to an image, unless it is zero, and answers whether it stands behind all others.
fn add_item(
    types: &Types,
    ty: TypeId,
    s: Steps,
    given: Given,
    image: &mut Growing,
) -> Result<bool, Memory>
    ensures none { OnOk result (HasNoZero image.old.items.items → HasNoZero image.new.items.items) }
    ensures rises { OnOk result (RisesTo types.now (shape types.now.nodes ty.0) 0 image.old.items.items image.old.least → RisesTo types.now (shape types.now.nodes ty.0) 0 image.new.items.items image.new.least) }
    ensures scalars { OnOk result (AreScalars types.now (shape types.now.nodes ty.0) image.old.items.items → AreScalars types.now (shape types.now.nodes ty.0) image.new.items.items) }
{
    if is_zero(given.value) {
        return Ok(true);
    }
    let alloc = *image.items.allocator();
    let item = item(alloc, s, given)?;
    image.add(types, ty, item)
}

/// The scalars of an image: the values that stay and are not zero.
#[tactic(auto, using(crate::proofs::ImageLaws::rising_from))]
fn items(
    alloc: Global,
    types: &Types,
    ty: TypeId,
    s: Steps,
    kept: &[Placed],
) -> Result<Vec<ImageItem>, Memory>
    ensures none { IfOk result (λ found. HasNoZero found.items) }
    ensures rising { IfOk result (λ found. IsRising types.now (shape types.now.nodes ty.0) found.items) }
    ensures scalars { IfOk result (λ found. AreScalars types.now (shape types.now.nodes ty.0) found.items) }
{
    let mut image = Growing::with_room(alloc, kept.len())?;
    for placed in kept {
        if !add_item(types, ty, s, placed.given, &mut image)? {
            return Err(impossible());
        }
    }
    Ok(image.items)
}

/// Whether a part stands behind all scalars of an image, where making it zero changes none.
fn is_behind(o: Object, path: &Path, image: &Growing) -> Result<bool, Memory> {
    match part_at(o.types, o.ty, path) {
        Some(at) => Ok(image.ends_before(at.offset)),
        None => Err(impossible()),
    }
}

/// What a step gives the elements of an array: characters, of the kind of the elements.
#[derive(Clone, Copy)]
struct Characters<'a> {
    /// The place of the step among the steps.
    step: usize,
    kind: IntKind,
    bytes: &'a [u8],
}

/// The kind of the elements of an array that a path leads to, if it leads to one.
fn element_kind(o: Object, path: &Path) -> Option<IntKind> {
    let array = part_at(o.types, o.ty, path)?;
    let first = element(o.types, array, 0)?;
    kind_of(o.types, first.ty)
}

/// What a step gives the elements of an array.
fn characters_of<'a>(
    o: Object,
    step: usize,
    path: &Path,
    bytes: &'a Bytes,
) -> Result<Characters<'a>, Memory> {
    match element_kind(o, path) {
        Some(kind) => Ok(Characters {
            step,
            kind,
            bytes: bytes.as_slice(),
        }),
        None => Err(impossible()),
    }
}

/// Adds the characters that a step gives the elements of an array, and answers whether each stands behind all other scalars.
fn add_characters(
    types: &Types,
    ty: TypeId,
    s: Steps,
    text: Characters,
    image: &mut Growing,
) -> Result<bool, Memory>
    ensures none { OnOk result (HasNoZero image.old.items.items → HasNoZero image.new.items.items) }
    ensures rises { OnOk result (RisesTo types.now (shape types.now.nodes ty.0) 0 image.old.items.items image.old.least → RisesTo types.now (shape types.now.nodes ty.0) 0 image.new.items.items image.new.least) }
    ensures scalars { OnOk result (AreScalars types.now (shape types.now.nodes ty.0) image.old.items.items → AreScalars types.now (shape types.now.nodes ty.0) image.new.items.items) }
{
    for i in 0..text.bytes.len() {
        let given = Given {
            step: text.step,
            element: Some(i as u64),
            value: Constant::Int(text.kind, wrap(text.kind, text.bytes[i] as i128)),
        };
        if !add_item(types, ty, s, given, image)? {
            return Ok(false);
        }
    }
    Ok(true)
}

/// Adds the scalar at the end of a path that a step gives a value, and answers whether it stands behind all others.
fn add_constant(
    types: &Types,
    ty: TypeId,
    s: Steps,
    given: Given,
    image: &mut Growing,
) -> Result<bool, Memory>
    ensures none { OnOk result (HasNoZero image.old.items.items → HasNoZero image.new.items.items) }
    ensures rises { OnOk result (RisesTo types.now (shape types.now.nodes ty.0) 0 image.old.items.items image.old.least → RisesTo types.now (shape types.now.nodes ty.0) 0 image.new.items.items image.new.least) }
    ensures scalars { OnOk result (AreScalars types.now (shape types.now.nodes ty.0) image.old.items.items → AreScalars types.now (shape types.now.nodes ty.0) image.new.items.items) }
{
    if is_zero(given.value) {
        let path = part(s.all, given.step)?;
        return is_behind(Object { types, ty }, path, image);
    }
    add_item(types, ty, s, given, image)
}

/// Adds what a step gives values, and answers whether that, or what it makes zero, stands behind all other scalars.
fn add_step(
    types: &Types,
    ty: TypeId,
    s: Steps,
    number: usize,
    image: &mut Growing,
) -> Result<bool, Memory>
    ensures none { OnOk result (HasNoZero image.old.items.items → HasNoZero image.new.items.items) }
    ensures rises { OnOk result (RisesTo types.now (shape types.now.nodes ty.0) 0 image.old.items.items image.old.least → RisesTo types.now (shape types.now.nodes ty.0) 0 image.new.items.items image.new.least) }
    ensures scalars { OnOk result (AreScalars types.now (shape types.now.nodes ty.0) image.old.items.items → AreScalars types.now (shape types.now.nodes ty.0) image.new.items.items) }
{
    let object = Object { types, ty };
    match s.all.get(number) {
        Some(InitStep::Zero(path)) => is_behind(object, path, image),
        Some(InitStep::Constant(_, value)) => {
            let given = Given {
                step: number,
                element: None,
                value: *value,
            };
            add_constant(types, ty, s, given, image)
        }
        Some(InitStep::Bytes(path, bytes)) => {
            if !is_behind(object, path, image)? {
                return Ok(false);
            }
            let text = characters_of(object, number, path, bytes)?;
            add_characters(types, ty, s, text, image)
        }
        Some(InitStep::Scalar(..) | InitStep::Aggregate(..)) | None => Err(impossible()),
    }
}

/// The scalars of an image, where each step is for a part behind those of the steps before it, as in a list without designators.
#[tactic(auto, using(crate::proofs::ImageLaws::rising_from))]
fn items_in_order(
    alloc: Global,
    types: &Types,
    ty: TypeId,
    s: Steps,
) -> Result<Option<Vec<ImageItem>>, Memory>
    ensures none { IfOk result (λ o. IfSome o (λ found. HasNoZero found.items)) }
    ensures rising { IfOk result (λ o. IfSome o (λ found. IsRising types.now (shape types.now.nodes ty.0) found.items)) }
    ensures scalars { IfOk result (λ o. IfSome o (λ found. AreScalars types.now (shape types.now.nodes ty.0) found.items)) }
{
    let mut image = Growing::with_room(alloc, most_scalars(s.all))?;
    for i in 0..s.all.len() {
        if !add_step(types, ty, s, i, &mut image)? {
            return Ok(None);
        }
    }
    Ok(Some(image.items))
}

/// The scalars of an image, in whatever order the steps are.
fn items_by_offset(
    alloc: Global,
    types: &Types,
    ty: TypeId,
    s: Steps,
) -> Result<Vec<ImageItem>, Memory>
    ensures none { IfOk result (λ found. HasNoZero found.items) }
    ensures rising { IfOk result (λ found. IsRising types.now (shape types.now.nodes ty.0) found.items) }
    ensures scalars { IfOk result (λ found. AreScalars types.now (shape types.now.nodes ty.0) found.items) }
{
    let mut events = Vec::new(alloc);
    let object = Object { types, ty };
    all_cleared(object, s.all, &mut events)?;
    all_given(object, s.all, &mut events)?;
    let kept = swept(alloc, events)?;
    items(alloc, types, ty, s, &kept)
}

/// The scalars of an image.
fn all_items(alloc: Global, types: &Types, ty: TypeId, s: Steps) -> Result<Vec<ImageItem>, Memory>
    ensures none { IfOk result (λ found. HasNoZero found.items) }
    ensures rising { IfOk result (λ found. IsRising types.now (shape types.now.nodes ty.0) found.items) }
    ensures scalars { IfOk result (λ found. AreScalars types.now (shape types.now.nodes ty.0) found.items) }
{
    match items_in_order(alloc, types, ty, s)? {
        Some(items) => Ok(items),
        None => items_by_offset(alloc, types, ty, s),
    }
}

/// The definition of an object of a type with these scalars; of each union one member is initialised.
#[tactic(auto, using(crate::proofs::ImageLaws::scalars_rise))]
fn definition(types: &Types, ty: TypeId, items: Vec<ImageItem>) -> Result<GlobalDef, Memory>
    requires none { HasNoZero items.items }
    requires scalars { AreScalars types.now (shape types.now.nodes ty.0) items.items }
    requires rising { IsRising types.now (shape types.now.nodes ty.0) items.items }
    ensures { IfOk result (IsImage types.now (shape types.now.nodes ty.0)) }
{
    let g = types.graph();
    if ty.0 >= g.len() || !unions_agree(g, ty, &items) {
        return Err(impossible());
    }
    if items.is_empty() {
        Ok(GlobalDef::Zero)
    } else {
        Ok(GlobalDef::Image(items))
    }
}

/// The definition of an object of a type with an initialiser: its scalars that are not zero, by rising offsets, of each union those of one
/// member.
///
/// The table gives each object or function that the constants name its place among the program's globals.
pub fn image(
    alloc: Global,
    t: &TypedInit,
    types: &Types,
    ty: TypeId,
    numbers: &[Option<EntityId>],
) -> Result<GlobalDef, Memory>
    ensures { IfOk result (IsImage types.now (shape types.now.nodes ty.0)) }
{
    let steps = Steps {
        all: &t.steps,
        numbers,
    };
    let items = all_items(alloc, types, ty, steps)?;
    definition(types, ty, items)
}
