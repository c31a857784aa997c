ghost use Rattle.std.specs.Prelude.{◌≡◌, ◌↔◌, true};
ghost use Rattle.type_graph.specs.Shapes.{Shape};
ghost use Rattle.cil_tree.specs.Typing.{same_shape};

/// A law, which does nothing when it is called: the test of equal types, on which the typing of expressions
/// stands, tells exactly whether two types are one.
#[tactic(auto, using(crate::proofs::ShapeEquality::same_is_equal))]
pub fn same_types_are_equal()
    ensures { (s t : Shape) → (same_shape s t ≡ true) ↔ (s ≡ t) }
{}
