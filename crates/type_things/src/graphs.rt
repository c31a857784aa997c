ghost use Rattle.std.specs.Prelude.{◌≡◌};
ghost use Rattle.type_graph.specs.Arena.{Graph};

use type_graph::TypeGraph;

/// What has a type graph: a translation unit.
pub trait HasGraph {
    // the types of the unit
    ghost graph_of: { Self → Graph };

    /// The types of the unit.
    fn graph(&self) -> &TypeGraph
        ensures { result.now ≡ graph_of self.now };
}

impl HasGraph for TypeGraph {
    ghost graph_of = { λ g. g };

    fn graph(&self) -> &TypeGraph {
        self
    }
}
