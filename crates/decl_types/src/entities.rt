ghost use Rattle.std.specs.Prelude.{◌≡◌, ◌<◌, length, IfErr, OnOk};
ghost use Rattle.cil_base.specs.declared.faults.RuleStop.TheVariants as stop;

use crate::declared::Linkage;
use crate::stops::{narrow, never};
use crate::types::is_function;
use cil_base::{Code, EntityId, Memory, NameId, RuleStop, TypeId};
use std::alloc::Global;
use type_graph::QualType;
use typed_tree::{EntityKind, Ordinary};
use unit_types::Types;

/// Whether an object or function is defined in the unit (C11 6.7p5, 6.9.2).
#[derive(Clone, Copy, PartialEq, Eq)]
pub enum Defined {
    Not,
    /// By tentative definitions alone (6.9.2p2).
    Tentative,
    Full,
}

/// An object with static storage duration, or a function.
#[derive(Clone, Copy)]
pub struct DeclaredEntity {
    /// Its name; the base of made names for a literal.
    pub name: NameId,
    pub kind: EntityKind,
    /// The composite of all its declarations in the unit so far (C11 6.2.7p4).
    pub ty: QualType,
    /// Whether it is a function that is defined with an empty identifier list (6.7.6.3p14).
    pub bare: bool,
    /// Whether it is named where it is evaluated.
    pub used: bool,
    pub defined: Defined,
}

impl DeclaredEntity {
    /// Whether it is a function with internal linkage that the unit does not define.
    fn lacks_body(&self, t: &Types) -> bool {
        self.kind == EntityKind::Internal
            && self.defined == Defined::Not
            && is_function(t, self.ty.of)
    }

    /// Whether it is a function with internal linkage that the unit neither uses nor defines: such a one is no part of the program.
    pub fn is_dropped(&self, t: &Types) -> bool {
        !self.used && self.lacks_body(t)
    }

    /// Whether it is a function with internal linkage that the unit uses and does not define (C11 6.9p3).
    pub(crate) fn is_missing(&self, t: &Types) -> bool {
        self.used && self.lacks_body(t)
    }
}

/// A fault that only the end of a unit shows.
#[derive(Clone, Copy)]
pub struct LateFault {
    pub entity: EntityId,
    /// `Incomplete` for a tentative definition, whose place is the first one's; `Defined` for a function, whose place is its first declaration.
    pub code: Code,
}

/// What a unit declares.
#[derive(Drop)]
pub struct Declarations {
    /// The objects with static storage duration and the functions, by their numbers.
    pub entities: Vec<DeclaredEntity>,
    /// What has internal linkage, by its first declaration, and the enumerators: in the order of the text.
    pub ordinary: Vec<Ordinary>,
}

/// The kind of what has linkage. What has none is a static local.
pub(crate) fn kind_of(linkage: Linkage) -> EntityKind {
    match linkage {
        Linkage::External => EntityKind::External,
        Linkage::Internal => EntityKind::Internal,
        Linkage::NoLinkage => EntityKind::StaticLocal,
    }
}

/// The entities of a unit by their numbers, and by the number of each name what it stands for with linkage.
#[derive(Drop)]
pub(crate) struct Entities {
    list: Vec<DeclaredEntity>,
    linked: Vec<Option<EntityId>>,
}

/// Makes a table longer than a name's number.
fn grow(linked: &mut Vec<Option<EntityId>>, n: NameId) -> Result<(), Memory>
    ensures { OnOk result (n.0 < length linked.new.items) }
{
    while linked.len() <= n.0 as usize {
        linked.push(None)?;
    }
    Ok(())
}

impl Entities {
    /// No entity.
    pub(crate) fn new(alloc: Global) -> Self {
        Entities {
            list: Vec::new(alloc),
            linked: Vec::new(alloc),
        }
    }

    /// The entities by their numbers.
    pub(crate) fn as_slice(&self) -> &[DeclaredEntity] {
        &self.list
    }

    /// The entities by their numbers.
    pub(crate) fn into_list(self) -> Vec<DeclaredEntity> {
        self.list
    }

    /// An entity by its number.
    pub(crate) fn get(&self, e: EntityId) -> Option<DeclaredEntity> {
        self.list.get(e.0 as usize).copied()
    }

    /// The entity of a name with linkage, with its number.
    pub(crate) fn linked(&self, n: NameId) -> Option<(EntityId, DeclaredEntity)> {
        let e = (*self.linked.get(n.0 as usize)?)?;
        let entity = self.get(e)?;
        Some((e, entity))
    }

    /// A new entity, with the next number.
    pub(crate) fn add(&mut self, entity: DeclaredEntity) -> Result<EntityId, Memory> {
        let e = narrow(self.list.len())?;
        self.list.push(entity)?;
        Ok(EntityId(e))
    }

    /// A new entity whose name has linkage.
    pub(crate) fn add_linked(&mut self, entity: DeclaredEntity) -> Result<EntityId, Memory> {
        let e = self.add(entity)?;
        grow(&mut self.linked, entity.name)?;
        self.linked[entity.name.0 as usize] = Some(e);
        Ok(e)
    }

    /// Gives an entity another content.
    pub(crate) fn set(&mut self, e: EntityId, entity: DeclaredEntity) -> Result<(), RuleStop>
        ensures { IfErr result (λ e. e ≡ stop.Memory) }
    {
        let i = e.0 as usize;
        if i >= self.list.len() {
            return Err(never());
        }
        self.list[i] = entity;
        Ok(())
    }

    /// Gives an entity another type, with its qualifiers.
    pub(crate) fn set_type(&mut self, e: EntityId, of: TypeId) -> Result<(), RuleStop>
        ensures { IfErr result (λ e. e ≡ stop.Memory) }
    {
        let i = e.0 as usize;
        if i >= self.list.len() {
            return Err(never());
        }
        self.list[i].ty.of = of;
        Ok(())
    }

    /// Notes that an entity is used.
    pub(crate) fn mark_used(&mut self, e: EntityId) {
        let i = e.0 as usize;
        if i < self.list.len() {
            self.list[i].used = true;
        }
    }
}
