ghost use Rattle.std.specs.Prelude.{◌≡◌, ℕ, Bool};
ghost use Rattle.type_graph.specs.Arena.{Graph};
ghost use Rattle.type_graph.specs.Shapes.{shape};
ghost use Rattle.type_graph.specs.Layouts.{layout, offset};
ghost use Rattle.map_graph.specs.Mapped.{mapped_shape};
ghost use Rattle.map_graph.specs.MappedAggregates.{MapsAggregates, Stays};

/// A law, which does nothing when it is called: where each complete aggregate is mapped with its members, a complete type keeps its size
/// and alignment (C11 6.5.3.4, 6.2.8), and a member its offset (6.7.2.1p15, p16).
pub fn mapped_types_keep_layouts()
    ensures types { (g h : Graph) (f : ℕ → ℕ) (keep : Bool) → MapsAggregates g h f keep → (t u : ℕ) → shape h.nodes u ≡ mapped_shape f keep (shape g.nodes t) → Stays (layout g t) (layout h u) }
    ensures members { (g h : Graph) (f : ℕ → ℕ) (keep : Bool) → MapsAggregates g h f keep → (a i : ℕ) → Stays (offset g a i) (offset h (f a) i) }
{}
