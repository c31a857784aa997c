ghost use Rattle.std.specs.Prelude.{◌≡◌, suc, max, List, map};
ghost use Rattle.type_graph.specs.declared.nodes.Node.{Node};
ghost use Rattle.type_graph.specs.Shapes.{shape};
ghost use Rattle.typed_tree.specs.StatementView.{stmts_of, top_stmts};
ghost use Rattle.typed_tree.specs.UnitView.{local_of, literal_of, function_of, definition_of, entity_of, unit_of, top_locals, top_literals, top_function, top_definition, top_entity};

use crate::statements::TypedStmt;
use crate::units::{
    Definition, Entity, EntityKind, Ordinary, TypedFunction, TypedLiteral, TypedLocal, TypedUnit,
};
use cil_base::{NameId, Place, TypeId};
use unit_types::Types;

/// What a function has by numbers: its parameters and declared objects, its compound literals, its labels' names.
#[derive(Drop)]
pub struct FunctionLists {
    /// How many of the locals are parameters, which are the first ones.
    pub params: u32,
    pub locals: Vec<TypedLocal>,
    pub literals: Vec<TypedLiteral>,
    pub labels: Vec<NameId>,
}

/// The body of a function (C11 6.9.1), of the items of its block.
pub fn function_body(lists: FunctionLists, body: Vec<TypedStmt>) -> TypedFunction
    ensures made { (nodes : List Node) → function_of nodes result ≡ record { params = lists.params; locals = map (local_of nodes) lists.locals.items; literals = map (literal_of nodes) lists.literals.items; labels = lists.labels.items; body = stmts_of nodes body.items } }
    ensures greatest { top_function result ≡ max (max (top_locals lists.locals.items) (top_literals lists.literals.items)) (top_stmts body.items) }
{
    TypedFunction {
        params: lists.params,
        locals: lists.locals,
        literals: lists.literals,
        labels: lists.labels,
        body,
    }
}

/// What is known of an object with static storage duration, or of a function, beside its definition.
#[derive(Clone, Copy)]
pub struct EntityHead {
    pub name: NameId,
    pub ty: TypeId,
    pub constant: bool,
    pub kind: EntityKind,
    pub bare: bool,
    pub kept: bool,
}

/// Where it is declared first, and where it is defined.
#[derive(Clone, Copy)]
pub struct EntityPlaces {
    pub first: Place,
    pub defined: Option<Place>,
}

/// An object with static storage duration, or a function.
pub fn entity_declared(head: EntityHead, places: EntityPlaces, definition: Definition) -> Entity
    ensures made { (nodes : List Node) → entity_of nodes result ≡ record { name = head.name; shape = shape nodes head.ty.0; constant = head.constant; kind = head.kind; first = places.first; defined = places.defined; bare = head.bare; kept = head.kept; definition = definition_of nodes definition } }
    ensures greatest { top_entity result ≡ max (suc head.ty.0) (top_definition definition) }
{
    Entity {
        name: head.name,
        ty: head.ty,
        constant: head.constant,
        kind: head.kind,
        first: places.first,
        defined: places.defined,
        bare: head.bare,
        kept: head.kept,
        definition,
    }
}

/// A translation unit (C11 6.9).
pub fn translation_unit(types: Types, entities: Vec<Entity>, ordinary: Vec<Ordinary>) -> TypedUnit
    ensures { unit_of result ≡ record { types = types; entities = map (entity_of types.nodes) entities.items; ordinary = ordinary.items } }
{
    TypedUnit {
        types,
        entities,
        ordinary,
    }
}
