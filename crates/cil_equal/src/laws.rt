ghost use Rattle.cil_tree.specs.Tree.{Program};
ghost use Rattle.cil_tree.specs.Programs.{SameProgram};
ghost use Rattle.cil_equal.specs.Runs.{RunAlike};

/// A law, which does nothing when it is called: equal programs have one data model and, run alone, in each mode do the
/// same with the same words, input and bound (own), so a text has one run.
pub fn equal_programs_run_alike()
    ensures { (p q : Program) → SameProgram p q → RunAlike p q }
{}
