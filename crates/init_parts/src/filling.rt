use crate::levels::{Composite, Level, Levels, Part, composite_of};
use cil_base::{AggId, Code, Fault, Feature, INITIALISED_SCALARS, IntKind, What};
use indexmap::IndexMap;
use std::alloc::Global;
use type_graph::{AggKind, QualType};
use typed_parts::{WalkStop, Walker, impossible, violated};
use typed_tree::{InitStep, Path, Step, TypedExp, TypedInit, initialiser, zeroed_part};
use unit_types::{Class, Types};

/// The storage duration of an object that is initialised (C11 6.2.4): that with static duration is given constants (6.7.9p4).
#[derive(Clone, Copy)]
pub enum Storage {
    Static,
    Automatic,
}

/// A part of an object, by its number: of a member, or of an element.
#[derive(Clone, Copy, PartialEq, Eq, Hash)]
struct PartKey {
    of: u32,
    number: u64,
}

/// An initialiser that is typed: its steps in the order of the text.
#[derive(Drop)]
pub struct Filling {
    pub storage: Storage,
    steps: Vec<InitStep>,
    /// How many scalars it names, and bytes of strings.
    scalars: u64,
    /// How many elements an array of unknown bound has by it (C11 6.7.9p22).
    pub reached: u64,
    /// The numbers of the objects inside an object. The object of the initialiser is 0.
    objects: IndexMap<PartKey, u32>,
    /// By the number of a union, the member that was initialised last.
    chosen: IndexMap<u32, u32>,
    count: u32,
}

/// What an initialiser does to an object, and how many elements an array of unknown bound has by it.
#[derive(Drop)]
pub struct Filled {
    pub init: TypedInit,
    pub reached: u64,
}

impl Filling {
    /// An initialiser before its first item.
    pub fn new(alloc: Global, storage: Storage) -> Self {
        Filling {
            storage,
            steps: Vec::new(alloc),
            scalars: 0,
            reached: 0,
            objects: IndexMap::new(alloc),
            chosen: IndexMap::new(alloc),
            count: 0,
        }
    }

    /// The whole initialiser, which begins with a token.
    pub fn finished(self, at: u32) -> Result<Filled, WalkStop> {
        if self.scalars > INITIALISED_SCALARS {
            return Err(WalkStop::At(at, Fault::Limit(What::Scalars)));
        }
        Ok(Filled {
            init: initialiser(self.steps),
            reached: self.reached,
        })
    }

    /// Adds a step.
    pub fn add(&mut self, step: InitStep) -> Result<(), WalkStop> {
        self.steps.push(step)?;
        Ok(())
    }

    /// Counts scalars.
    pub fn counted(&mut self, n: u64) -> Result<(), WalkStop> {
        match self.scalars.checked_add(n) {
            Some(sum) => {
                self.scalars = sum;
                Ok(())
            }
            None => Err(impossible()),
        }
    }

    /// A number for an object of which no member was initialised yet.
    fn fresh(&mut self) -> Result<u32, WalkStop> {
        match self.count.checked_add(1) {
            Some(n) => {
                self.count = n;
                Ok(n)
            }
            None => Err(impossible()),
        }
    }

    /// The number of the object that is a part of another.
    pub fn object(&mut self, of: u32, step: Step) -> Result<u32, WalkStop> {
        let key = key_of(of, step);
        if let Some(n) = self.objects.get(&key) {
            return Ok(*n);
        }
        let n = self.fresh()?;
        self.objects.insert(key, n)?;
        Ok(n)
    }

    /// Notes that a part has a value as a whole: what was initialised in it before does not count. Its new number.
    pub fn renewed(&mut self, of: u32, step: Step) -> Result<u32, WalkStop> {
        let n = self.fresh()?;
        self.objects.insert(key_of(of, step), n)?;
        Ok(n)
    }

    /// Each byte of an object becomes zero.
    pub fn zero(&mut self, path: Path) -> Result<(), WalkStop> {
        self.add(zeroed_part(path))
    }
}

fn key_of(of: u32, step: Step) -> PartKey {
    let number = match step {
        Step::Field(i) => i as u64,
        Step::Index(i) => i,
    };
    PartKey { of, number }
}

/// Puts a part of the innermost object on the way. A union of which another member was initialised before becomes zero (C11 6.2.6.1p7,
/// 6.7.9p19, own).
pub fn choose(
    w: &Walker<'_>,
    filling: &mut Filling,
    levels: &mut Levels,
    base: &Path,
    step: Step,
) -> Result<(), WalkStop> {
    let level = levels.innermost()?;
    levels.choose(step)?;
    match (level.of, step) {
        (Composite::Union(_), Step::Field(i)) => {
            let path = levels.inner_path(w.alloc, base)?;
            switch_member(filling, level.object, i, path)
        }
        _ => Ok(()),
    }
}

/// Notes which member of a union is initialised.
fn switch_member(
    filling: &mut Filling,
    object: u32,
    member: u32,
    path: Path,
) -> Result<(), WalkStop> {
    let before = filling.chosen.insert(object, member)?;
    match before {
        Some(before) if before != member => {
            filling.renewed(object, Step::Field(member))?;
            filling.zero(path)
        }
        _ => Ok(()),
    }
}

/// Goes down into the part on the way, which has a type with parts.
pub fn descend(filling: &mut Filling, levels: &mut Levels, of: Composite) -> Result<(), WalkStop> {
    let outer = levels.innermost()?;
    let object = filling.object(outer.object, outer.current)?;
    levels.descend(Level::new(of, object))
}

/// Whether a part is a flexible array member (C11 6.7.2.1p18).
pub(crate) fn is_flexible(t: &Types, ty: QualType) -> bool {
    match t.class(ty.of) {
        Class::Array(_, None) => true,
        Class::Array(_, Some(_))
        | Class::Void
        | Class::Int(_)
        | Class::Ptr(_)
        | Class::Func { .. }
        | Class::Agg(..) => false,
    }
}

/// Whether a type is an array of characters (C11 6.7.9p14).
pub fn is_character_array(t: &Types, ty: QualType) -> bool {
    match t.class(ty.of) {
        Class::Array(of, _) => is_character(t, of),
        Class::Void | Class::Int(_) | Class::Ptr(_) | Class::Func { .. } | Class::Agg(..) => false,
    }
}

/// Whether a type is a character type (C11 6.2.5p15): these have the rank of char, and no other does (6.3.1.1p1).
fn is_character(t: &Types, ty: QualType) -> bool {
    match t.class(ty.of) {
        Class::Int(kind) => kind.rank() == IntKind::Char.rank(),
        Class::Void | Class::Ptr(_) | Class::Array(..) | Class::Func { .. } | Class::Agg(..) => {
            false
        }
    }
}

/// What an item that is an expression can initialise besides scalars.
#[derive(Clone, Copy)]
pub enum Wanted {
    /// A struct or union of its own type (C11 6.7.9p13).
    Record(AggId),
    /// An array of characters, as it is a string literal (6.7.9p14).
    Characters,
    /// Scalars alone.
    Scalar,
}

/// What the value of an expression can initialise.
pub fn wanted_by(t: &Types, e: &TypedExp) -> Wanted {
    match t.class(e.ty().of) {
        Class::Agg(AggKind::Struct, a) | Class::Agg(AggKind::Union, a) => Wanted::Record(a),
        Class::Agg(AggKind::Enum, _)
        | Class::Void
        | Class::Int(_)
        | Class::Ptr(_)
        | Class::Array(..)
        | Class::Func { .. } => Wanted::Scalar,
    }
}

/// Whether a part takes an item as a whole.
fn takes(t: &Types, ty: QualType, of: Composite, wanted: Wanted) -> bool {
    match of {
        Composite::Struct(a) => wants_record(wanted, a),
        Composite::Union(a) => wants_record(wanted, a),
        Composite::Array(..) => wants_characters(wanted) && is_character_array(t, ty),
    }
}

/// Whether an item can initialise a struct or union as a whole.
fn wants_record(wanted: Wanted, a: AggId) -> bool {
    match wanted {
        Wanted::Record(b) => a == b,
        Wanted::Characters | Wanted::Scalar => false,
    }
}

/// Whether an item can initialise an array of characters as a whole.
fn wants_characters(wanted: Wanted) -> bool {
    match wanted {
        Wanted::Characters => true,
        Wanted::Record(_) | Wanted::Scalar => false,
    }
}

/// The refusal of an item, which begins with a token, that would initialise a flexible array member (own).
pub(crate) fn flexible_at(item: u32) -> WalkStop {
    WalkStop::At(item, Fault::Excluded(Feature::FlexibleInit))
}

/// Refuses an item that would initialise a flexible array member (own).
pub fn not_flexible(t: &Types, ty: QualType, item: u32) -> Result<(), WalkStop> {
    if is_flexible(t, ty) {
        Err(flexible_at(item))
    } else {
        Ok(())
    }
}

/// The next part for an item without designators, which begins with a token (C11 6.7.9p2, p17).
pub fn next_chosen(
    w: &Walker<'_>,
    filling: &mut Filling,
    levels: &mut Levels,
    base: &Path,
    item: u32,
) -> Result<QualType, WalkStop> {
    match levels.next_part(&w.types)? {
        Some(part) => {
            choose(w, filling, levels, base, part.step)?;
            Ok(part.ty)
        }
        None => Err(violated(item, Code::Initialiser)),
    }
}

/// The first part of the part on the way (C11 6.7.9p20).
fn first_chosen(
    w: &Walker<'_>,
    filling: &mut Filling,
    levels: &mut Levels,
    base: &Path,
    of: Composite,
) -> Result<Part, WalkStop> {
    descend(filling, levels, of)?;
    match levels.innermost()?.part(&w.types) {
        Some(part) => {
            choose(w, filling, levels, base, part.step)?;
            Ok(part)
        }
        None => Err(impossible()),
    }
}

/// Goes down from the part on the way, whose type is given, to the first part of it that takes an item without braces (C11 6.7.9p13, p14,
/// p20). The type of that part.
pub fn settle(
    w: &Walker<'_>,
    filling: &mut Filling,
    levels: &mut Levels,
    base: &Path,
    from: QualType,
    wanted: Wanted,
    item: u32,
) -> Result<QualType, WalkStop> {
    let mut ty = from;
    for _depth in 0..u64::MAX {
        not_flexible(&w.types, ty, item)?;
        let Some(of) = composite_of(&w.types, ty) else {
            return Ok(ty);
        };
        if takes(&w.types, ty, of, wanted) {
            return Ok(ty);
        }
        ty = first_chosen(w, filling, levels, base, of)?.ty;
    }
    Err(impossible())
}
