use cil_base::AggId;
use smallvec::SmallVec;
use std::alloc::Global;
use type_graph::{AggKind, QualType};
use typed_parts::{WalkStop, impossible};
use typed_tree::{Path, Step};
use unit_types::{Class, Types};

/// An array, struct or union whose parts are initialised one behind the other (C11 6.7.9p17).
#[derive(Clone, Copy)]
pub enum Composite {
    /// Its elements' type, and its bound where it is known.
    Array(QualType, Option<u64>),
    Struct(AggId),
    Union(AggId),
}

/// The part that comes next where no designator names one (C11 6.7.9p17).
#[derive(Clone, Copy)]
pub enum Next {
    Element(u64),
    Member(u32),
    /// A part of a union was initialised, so none comes (6.7.9p17).
    Nothing,
}

/// A composite object on the way to the part that is initialised.
#[derive(Clone, Copy)]
pub struct Level {
    pub of: Composite,
    /// The number of the object among those of the initialiser.
    pub object: u32,
    /// The part on the way.
    pub current: Step,
    pub next: Next,
}

/// A part of a composite object.
#[derive(Clone, Copy)]
pub struct Part {
    pub step: Step,
    pub ty: QualType,
}

/// The composite object that a type is, if it is one.
pub fn composite_of(t: &Types, ty: QualType) -> Option<Composite> {
    match t.class(ty.of) {
        Class::Array(of, bound) => Some(Composite::Array(of, bound)),
        Class::Agg(AggKind::Struct, a) => Some(Composite::Struct(a)),
        Class::Agg(AggKind::Union, a) => Some(Composite::Union(a)),
        Class::Agg(AggKind::Enum, _)
        | Class::Void
        | Class::Int(_)
        | Class::Ptr(_)
        | Class::Func { .. } => None,
    }
}

/// Whether an array with such a bound has an element.
pub fn has_element(bound: Option<u64>, i: u64) -> bool {
    match bound {
        Some(count) => i < count,
        None => true,
    }
}

/// The part behind another one, of an array or a struct.
fn next_behind(step: Step) -> Next {
    let next = match step {
        Step::Index(i) => i.checked_add(1).map(Next::Element),
        Step::Field(i) => i.checked_add(1).map(Next::Member),
    };
    next.unwrap_or(Next::Nothing)
}

impl Level {
    /// An object before its first part.
    pub fn new(of: Composite, object: u32) -> Self {
        let (current, next) = match of {
            Composite::Array(..) => (Step::Index(0), Next::Element(0)),
            Composite::Struct(_) | Composite::Union(_) => (Step::Field(0), Next::Member(0)),
        };
        Level {
            of,
            object,
            current,
            next,
        }
    }

    /// The next part, if there is one.
    pub fn part(&self, t: &Types) -> Option<Part> {
        match self.of {
            Composite::Array(of, bound) => self.element(of, bound),
            Composite::Struct(a) => self.member(t, a),
            Composite::Union(a) => self.member(t, a),
        }
    }

    /// The next element of an array.
    fn element(&self, of: QualType, bound: Option<u64>) -> Option<Part> {
        let Next::Element(i) = self.next else {
            return None;
        };
        if has_element(bound, i) {
            Some(Part {
                step: Step::Index(i),
                ty: of,
            })
        } else {
            None
        }
    }

    /// The next member of a struct or union.
    fn member(&self, t: &Types, a: AggId) -> Option<Part> {
        let Next::Member(i) = self.next else {
            return None;
        };
        let m = t.member(a, i as usize)?;
        Some(Part {
            step: Step::Field(i),
            ty: m.ty,
        })
    }

    /// What comes behind a part.
    fn behind(&self, step: Step) -> Next {
        match self.of {
            Composite::Union(_) => Next::Nothing,
            Composite::Array(..) | Composite::Struct(_) => next_behind(step),
        }
    }

    /// The object with a part on the way.
    fn at_part(&self, step: Step) -> Self {
        Level {
            of: self.of,
            object: self.object,
            current: step,
            next: self.behind(step),
        }
    }
}

/// The way from the object of a brace list to the part that is initialised: the innermost object stands last.
#[derive(Drop)]
pub struct Levels {
    levels: Vec<Level>,
}

impl Levels {
    /// The object of a brace list itself.
    pub fn new(alloc: Global, outermost: Level) -> Result<Self, WalkStop> {
        let mut levels = Vec::new(alloc);
        levels.push(outermost)?;
        Ok(Levels { levels })
    }

    /// The innermost object on the way.
    pub fn innermost(&self) -> Result<Level, WalkStop> {
        match self.levels.last() {
            Some(level) => Ok(*level),
            None => Err(impossible()),
        }
    }

    /// How many elements the object of the brace list has at least, where it had so many before: one more than the greatest on the way.
    pub fn reached(&self, before: u64) -> u64 {
        match self.levels.first() {
            Some(level) => match level.current {
                Step::Index(i) => before.max(i.saturating_add(1)),
                Step::Field(_) => before,
            },
            None => before,
        }
    }

    /// Goes back to the object of the brace list (C11 6.7.9p7).
    pub fn restart(&mut self) {
        self.levels.truncate(1);
    }

    /// Leaves the objects of which no part comes next, but not that of the brace list. The next part, if there is one.
    pub fn next_part(&mut self, t: &Types) -> Result<Option<Part>, WalkStop> {
        for _left in 1..self.levels.len() {
            match self.innermost()?.part(t) {
                Some(part) => return Ok(Some(part)),
                None => {
                    self.levels.pop();
                }
            }
        }
        Ok(self.innermost()?.part(t))
    }

    /// Puts a part of the innermost object on the way.
    pub fn choose(&mut self, step: Step) -> Result<(), WalkStop> {
        match self.levels.last_mut() {
            Some(level) => {
                *level = level.at_part(step);
                Ok(())
            }
            None => Err(impossible()),
        }
    }

    /// Goes down into the part on the way.
    pub fn descend(&mut self, level: Level) -> Result<(), WalkStop> {
        self.levels.push(level)?;
        Ok(())
    }

    /// The path behind another one to the part on the way.
    pub fn path(&self, alloc: Global, base: &Path) -> Result<Path, WalkStop> {
        let mut path = SmallVec::from_slice(alloc, base.as_slice())?;
        for level in self.levels.as_slice() {
            path.push(level.current)?;
        }
        Ok(path)
    }

    /// The path behind another one to the innermost object on the way.
    pub fn inner_path(&self, alloc: Global, base: &Path) -> Result<Path, WalkStop> {
        let mut path = self.path(alloc, base)?;
        path.pop();
        Ok(path)
    }
}
