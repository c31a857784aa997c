ghost use Rattle.std.specs.Prelude.{◌≡◌, ◌∷◌, ◌++◌, [], false, map, OnOk, IfOk};
ghost use Rattle.cil_merge.specs.Listing.{mark, once_each, marks_of};
ghost use Rattle.cil_merge.specs.Numbering.{with_mark, with_marks, marks, IsKnown, GainsTypes};

use crate::arena::Arena;
use crate::numbers::type_in;
use cil_base::{EntityId, Memory, NameId, TypeId};
use cil_bodies::Use;
use cil_tree::{CilUnit, GlobalDecl, GlobalDef};
use indexmap::IndexMap;
use link_names::{Fronted, entity_number};
use std::alloc::Global;
use type_graph::{Node, QualType, Quals, TypeGraph};
use type_things::impossible;

/// The globals of a program while they are numbered: external ones by their names.
#[derive(Drop)]
pub(crate) struct Globals {
    external: IndexMap<NameId, EntityId>,
    pub(crate) all: Vec<GlobalDecl>,
    /// For each unit what its globals are in the program.
    pub(crate) numbers: Vec<Vec<EntityId>>,
}

/// A type of the program.
fn node(graph: &TypeGraph, t: TypeId) -> Result<&Node, Memory> {
    if t.0 >= graph.len() {
        return Err(impossible());
    }
    Ok(graph.node(t))
}

/// Whether a declaration gives a bound or a prototype that the type so far lacks (C11 6.2.7p3).
fn says_more(graph: &TypeGraph, before: TypeId, next: TypeId) -> Result<bool, Memory> {
    match (node(graph, before)?, node(graph, next)?) {
        (Node::Array(_, None), Node::Array(_, Some(_))) => Ok(true),
        (Node::Func { proto: false, .. }, Node::Func { proto: true, .. }) => Ok(true),
        _ => Ok(false),
    }
}

/// Gives an external global the bound or the prototype of another declaration.
fn add_type(graph: &TypeGraph, global: &mut GlobalDecl, next: TypeId) -> Result<(), Memory>
    ensures { mark global.new ≡ mark global.old }
{
    if says_more(graph, global.ty, next)? {
        global.ty = next;
    }
    Ok(())
}

/// Gives it to the external global with a number.
#[tactic(auto, using(crate::proofs::ListingLaws::marks_set))]
fn add_type_at(
    graph: &TypeGraph,
    all: &mut Vec<GlobalDecl>,
    number: EntityId,
    next: TypeId,
) -> Result<(), Memory>
    ensures { map mark all.new.items ≡ map mark all.old.items }
{
    let i = number.0 as usize;
    if i >= all.len() {
        return Err(impossible());
    }
    add_type(graph, &mut all[i], next)
}

impl Globals {
    /// Adds a global that is not there yet.
    #[tactic(auto, using(crate::proofs::ListingLaws::mark_behind))]
    fn append(&mut self, global: &GlobalDecl, ty: TypeId) -> Result<EntityId, Memory>
        ensures marks { OnOk result (marks self.new ≡ marks self.old ++ mark global.now ∷ []) }
        ensures known { OnOk result (self.new.external.entries ≡ self.old.external.entries) }
    {
        let number = entity_number(self.all.len())?;
        self.all.push(GlobalDecl {
            name: global.name,
            ty,
            internal: global.internal,
            def: GlobalDef::Declared,
        })?;
        Ok(number)
    }

    /// Adds an external global at its first unit.
    fn append_external(&mut self, global: &GlobalDecl, ty: TypeId) -> Result<EntityId, Memory>
        requires known { IsKnown self.old }
        requires external { global.now.internal ≡ false }
        ensures marks { OnOk result (marks self.new ≡ marks self.old ++ mark global.now ∷ []) }
        ensures known { OnOk result (IsKnown self.new) }
    {
        let number = self.append(global, ty)?;
        self.external.insert(global.name, number)?;
        Ok(number)
    }

    /// Adds what another unit says of an external global.
    #[tactic(auto, using(crate::proofs::ListingLaws::known_kept))]
    fn add_external(
        &mut self,
        graph: &TypeGraph,
        global: &GlobalDecl,
        ty: TypeId,
    ) -> Result<EntityId, Memory>
        requires known { IsKnown self.old }
        requires external { global.now.internal ≡ false }
        ensures marks { OnOk result (marks self.new ≡ with_mark (marks self.old) (mark global.now)) }
        ensures known { OnOk result (IsKnown self.new) }
    {
        let known = match self.external.get(&global.name) {
            Some(known) => *known,
            None => return Ok(self.append_external(global, ty)?),
        };
        add_type_at(graph, &mut self.all, known, ty)?;
        Ok(known)
    }

    /// The number of a unit's global in the program.
    #[tactic(auto, using(crate::proofs::ListingLaws::mark_inside, crate::proofs::ListingLaws::known_inside))]
    fn add(
        &mut self,
        graph: &TypeGraph,
        global: &GlobalDecl,
        ty: TypeId,
    ) -> Result<EntityId, Memory>
        requires known { IsKnown self.old }
        ensures marks { OnOk result (marks self.new ≡ with_mark (marks self.old) (mark global.now)) }
        ensures known { OnOk result (IsKnown self.new) }
    {
        if global.internal {
            return Ok(self.append(global, ty)?);
        }
        self.add_external(graph, global, ty)
    }

    /// Adds the globals of a unit, whose types have numbers in the program.
    #[tactic(auto, using(crate::proofs::ListingLaws::marks_next, crate::proofs::ListingLaws::marks_end, crate::proofs::ListingLaws::known_kept))]
    fn add_unit(
        &mut self,
        alloc: Global,
        graph: &TypeGraph,
        unit: &CilUnit,
        types: &[TypeId],
    ) -> Result<(), Memory>
        requires known { IsKnown self.old }
        ensures marks { OnOk result (marks self.new ≡ with_marks (marks self.old) (map mark unit.now.globals.items)) }
        ensures known { OnOk result (IsKnown self.new) }
    {
        let mut numbers = Vec::new(alloc);
        for e in 0..unit.globals.len() {
            let global = &unit.globals[e];
            let ty = type_in(types, global.ty)?;
            numbers.push(self.add(graph, global, ty)?)?;
        }
        self.numbers.push(numbers)?;
        Ok(())
    }
}

/// The globals of the program that units become, without their definitions: by unit, and an external one at its first unit, with the
/// type of its first declaration and the bound or the prototype that any unit gives it.
#[tactic(auto, using(crate::proofs::ListingLaws::known_at_first))]
pub(crate) fn all_globals(
    alloc: Global,
    units: &[Fronted],
    arena: &Arena,
) -> Result<Globals, Memory>
    ensures { IfOk result (λ g. marks g ≡ once_each (marks_of units.now)) }
{
    let mut globals = Globals {
        external: IndexMap::new(alloc),
        all: Vec::new(alloc),
        numbers: Vec::new(alloc),
    };
    for u in 0..units.len() {
        let Some(types) = arena.types.get(u) else {
            return Err(impossible());
        };
        globals.add_unit(alloc, &arena.graph, &units[u].cil, types)?;
    }
    Ok(globals)
}

/// A pointer to a type.
#[tactic(auto, using(crate::proofs::GainLaws::gains_none, crate::proofs::GainLaws::gains_of))]
fn pointer_to(graph: &mut TypeGraph, of: TypeId) -> Result<TypeId, Memory>
    ensures { GainsTypes graph.old graph.new }
{
    if of.0 >= graph.len() {
        return Err(impossible());
    }
    let quals = Quals {
        constant: false,
        restricted: false,
    };
    graph.add_node(Node::Ptr(QualType { quals, of }))
}

/// How a unit's global is used, by its type there and its number in the program.
#[tactic(auto, using(crate::proofs::GainLaws::gains_none))]
fn use_of(
    graph: &mut TypeGraph,
    all: &[GlobalDecl],
    ty: TypeId,
    entity: EntityId,
) -> Result<Use, Memory>
    ensures { OnOk result (GainsTypes graph.old graph.new) }
{
    let Some(global) = all.get(entity.0 as usize) else {
        return Err(impossible());
    };
    if global.ty == ty {
        return Ok(Use {
            entity,
            through: None,
        });
    }
    Ok(Use {
        entity,
        through: Some(pointer_to(graph, ty)?),
    })
}

/// How the globals of a unit are used.
#[tactic(auto, using(crate::proofs::GainLaws::gains_none, crate::proofs::GainLaws::gains_twice))]
pub(crate) fn uses_of(
    alloc: Global,
    graph: &mut TypeGraph,
    all: &[GlobalDecl],
    unit: &CilUnit,
    types: &[TypeId],
    numbers: &[EntityId],
) -> Result<Vec<Use>, Memory>
    ensures { OnOk result (GainsTypes graph.old graph.new) }
{
    let mut uses = Vec::new(alloc);
    for e in 0..unit.globals.len() {
        let ty = type_in(types, unit.globals[e].ty)?;
        let Some(entity) = numbers.get(e) else {
            return Err(impossible());
        };
        uses.push(use_of(graph, all, ty, *entity)?)?;
    }
    Ok(uses)
}
