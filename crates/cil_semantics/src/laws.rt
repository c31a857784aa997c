ghost use Rattle.std.specs.Prelude.{ℕ, Bool, List, [], ◌∷◌, map};
ghost use Rattle.cil_base.specs.declared.kinds.Mode.{Mode};
ghost use Rattle.execution.specs.Calls.{Enter};
ghost use Rattle.execution.specs.Laws.{CallsAreTheirStep, IsCutByBounds, SpendsLeast};
ghost use Rattle.execution.specs.Linking.{linked, AreDefinedOnce};
ghost use Rattle.cil_tree.specs.Tree.{Program};
ghost use Rattle.cil_tree.specs.Programs.{IsProgram};
ghost use Rattle.cil_semantics.specs.Runs.{linkables, RunCil, UnitsSpent};
ghost use Rattle.cil_semantics.specs.Laws.{linked_calls, StatementsAreTheirStep, FollowsItsJumps};

/// What a statement does in linked programs is a fixed point: it does what it does where the statements that come
/// behind a spent unit in it do so (own).
pub fn statements_are_their_step()
    ensures { (common : Bool) (programs : List Program) → StatementsAreTheirStep (linked_calls common programs) }
{}

/// What a statement gives is no jump to a label that stands in it, whatever calls do (C11 6.8.6.1p2: such a jump is
/// followed within the statement).
pub fn jumps_within_are_followed()
    ensures { (enter : Enter) → FollowsItsJumps enter }
{}

/// What a call does in linked programs is a fixed point: it does what it does where the calls in its body do so
/// (own).
pub fn calls_are_their_step()
    ensures { (common : Bool) (programs : List Program) → CallsAreTheirStep (linked common (map linkables programs)) }
{}

/// A smaller bound only cuts a run of programs: with units more, a run that has ended is the same, and one that is
/// still running goes on from its output (own).
pub fn bounds_only_cut()
    ensures { (programs : List Program) (mode : Mode) (words : List (List ℕ)) (input : List ℕ) → IsCutByBounds (RunCil programs mode words input) }
{}

/// The units that an ended run of programs has spent are its least bound: there it ends so too, and at each smaller
/// bound it is still running (own).
pub fn ended_runs_spend_their_least_bound()
    ensures { (programs : List Program) (mode : Mode) (words : List (List ℕ)) (input : List ℕ) → SpendsLeast (RunCil programs mode words input) (UnitsSpent programs mode words input) }
{}

/// A well-formed program that is run alone defines no name twice (C11 6.2.3, 6.9p5), so that it does the same whether
/// tentative definitions of several programs are common or not.
pub fn a_program_defines_each_name_once()
    ensures { (p : Program) → IsProgram p → AreDefinedOnce (linkables p ∷ []) }
{}
