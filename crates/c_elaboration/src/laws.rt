ghost use Rattle.execution.specs.Calls.{Enter};
ghost use Rattle.c_tree.specs.Syntax.{ExprTree};
ghost use Rattle.c_semantics.specs.Places.{Activation};
ghost use Rattle.c_elaboration.specs.GraphTypes.{TypesAreOfGraph};
ghost use Rattle.c_elaboration.specs.Laws.{ExpressionsOfStatements, MeansItsSyntax};

/// What an expression does (C11 6.5) is what the typed expression does that the walk makes of it: its value or place, the
/// memory, the output, and how the run ends in it, if it does.
pub fn typed_expressions_mean_their_syntax()
    ensures { (a : Activation) (enter : Enter) (e : ExprTree) → MeansItsSyntax a enter e }
{}

/// What an expression or an initialiser does in a statement (C11 6.7.9, 6.8) is what its typed form does: an effect, a
/// condition, the value of a switch, what is returned, the initialiser of an automatic object.
pub fn typed_parts_of_statements_mean_their_syntax()
    ensures { (a : Activation) (enter : Enter) → ExpressionsOfStatements a enter }
{}

/// The types of a typed unit that come from a graph have the data model, the sizes and the enumerated types of the graph,
/// which is all that operators, conversions and tests ask of them, and their structures and unions the offsets (C11
/// 6.5.3.4, 6.7.2.1p15 to p18).
pub fn types_of_units_are_those_of_their_graph()
    ensures { TypesAreOfGraph }
{}
