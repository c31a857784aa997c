ghost use Rattle.std.specs.Prelude.{◌≡◌, ◌≤◌, ℕ, Bool, List, Some, length, slice_get};
ghost use Rattle.std.specs.Option.{option_map};
ghost use Rattle.type_graph.specs.Arena.{Graph};
ghost use Rattle.type_graph.specs.Growth.{Grows};
ghost use Rattle.cil_tree.specs.declared.expressions.Exp.{Exp};
ghost use Rattle.cil_tree.specs.declared.globals.Body.{Body};
ghost use Rattle.cil_tree.specs.declared.statements.Stmt.{Stmt};
ghost use Rattle.cil_tree.specs.View.{exp_of, stmts_of, body_of};
ghost use Rattle.map_graph.specs.Mapped.{mapped_shape, Maps};
ghost use Rattle.cil_bodies.specs.declared.mapping.Mapping.{Mapping as Table};
ghost use Rattle.cil_bodies.specs.declared.mapping.Use.{Use as Entry};
ghost use Rattle.cil_bodies.specs.Mapped.{Use};
ghost use Rattle.cil_bodies.specs.Maps.{use_at, Tables};
ghost use Rattle.cil_bodies.specs.Top.{top_exp, top_stmts, top_body};

/// A law, which does nothing when it is called: a tree whose types stand in a graph is seen the same in a graph that grew from it.
#[tactic(auto, using(crate::proofs::Kept::exp_kept, crate::proofs::Kept::stmts_kept, crate::proofs::Kept::body_kept))]
pub fn grown_types_keep_trees()
    ensures exps { (g h : Graph) → Grows g h → (e : Exp) → top_exp e ≤ length g.nodes → exp_of h.nodes e ≡ exp_of g.nodes e }
    ensures stmts { (g h : Graph) → Grows g h → (ss : List Stmt) → top_stmts ss ≤ length g.nodes → stmts_of h.nodes ss ≡ stmts_of g.nodes ss }
    ensures bodies { (g h : Graph) (names : List (List ℕ)) → Grows g h → (b : Body) → top_body b ≤ length g.nodes → body_of h.nodes names b ≡ body_of g.nodes names b }
{}

/// A law, which does nothing when it is called: a table that has, for each type of a graph, one of the mapped shape in another graph, and for
/// each object and function what it is there, says of a tree what mapping shapes says.
#[tactic(auto, using(crate::proofs::TableLaws::tables_of))]
pub fn mapped_graphs_give_tables()
    ensures { (g h : Graph) (f : ℕ → ℕ) (keep : Bool) (t : Table) (uses : ℕ → Use) → Maps g h f keep t.types.now → length t.types.now ≡ length g.nodes → ((n : ℕ) (u : Entry) → slice_get t.uses.now n ≡ Some u → use_at h.nodes u ≡ uses n) → Tables t (record { type = option_map (mapped_shape f keep); use_of = uses }) g.nodes h.nodes }
{}
