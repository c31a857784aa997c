use cil_base::{EntityId, Place};
use cil_tree::CilUnit;
use type_graph::TypeGraph;
use type_things::HasGraph;
use typed_tree::Ordinary;

/// Where an external name of a unit is declared and defined (C11 6.9).
#[derive(Clone, Copy)]
pub struct Site {
    /// The object or function, by its place among the unit's globals.
    pub entity: EntityId,
    /// The place of its first declaration.
    pub first: Place,
    /// The place of its definition: the first tentative one where it has no other (C11 6.9.2p2).
    pub defined: Option<Place>,
    /// Whether all its definitions are tentative (C11 6.9.2p2).
    pub tentative: bool,
    /// Whether it is a function that is defined with an empty identifier list (C11 6.7.6.3p14).
    pub bare: bool,
}

/// A translation unit as a CIL program (C11 5.1.1.1), with what linking it with others asks for. Its names are those of the source;
/// equal ones may stand in it, and tags may be absent.
#[derive(Drop)]
pub struct Fronted {
    /// The program.
    pub cil: CilUnit,
    /// Its external names, each once, in the order of their first declarations.
    pub sites: Vec<Site>,
    /// Its objects and functions with internal linkage and its enumerators, in the order of their places.
    pub ordinary: Vec<Ordinary>,
}

impl HasGraph for Fronted {
    ghost graph_of = { λ f. f.cil.graph };

    fn graph(&self) -> &TypeGraph {
        &self.cil.graph
    }
}
