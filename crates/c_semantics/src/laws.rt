ghost use Rattle.std.specs.Prelude.{ℕ, List};
ghost use Rattle.cil_base.specs.declared.kinds.Mode.{Mode};
ghost use Rattle.execution.specs.Laws.{CallsAreTheirStep, IsCutByBounds, SpendsLeast};
ghost use Rattle.execution.specs.Linking.{linked};
ghost use Rattle.c_tree.specs.Units.{UnitTree};
ghost use Rattle.c_semantics.specs.Units.{linkables, RunC, UnitsSpent};
ghost use Rattle.c_semantics.specs.Laws.{PartsAreTheirStep};

/// What a part of a function does in linked units is a fixed point: it does what it does where the parts that come
/// behind a spent unit in it do so (own).
pub fn parts_are_their_step()
    ensures { (texts : List (List ℕ)) (mode : Mode) (units : List UnitTree) → PartsAreTheirStep texts mode units }
{}

/// What a call does in linked units is a fixed point: it does what it does where the calls in its body do so (own).
pub fn calls_are_their_step()
    ensures { (texts : List (List ℕ)) (mode : Mode) (units : List UnitTree) → CallsAreTheirStep (linked mode.common (linkables texts mode.abi units)) }
{}

/// A smaller bound only cuts a run of units: with units of the budget more, a run that has ended is the same, and one
/// that is still running goes on from its output (own).
pub fn bounds_only_cut()
    ensures { (texts : List (List ℕ)) (mode : Mode) (units : List UnitTree) (words : List (List ℕ)) (input : List ℕ) → IsCutByBounds (RunC texts units mode words input) }
{}

/// The units of the budget that an ended run has spent are its least bound: there it ends so too, and at each smaller
/// bound it is still running (own).
pub fn ended_runs_spend_their_least_bound()
    ensures { (texts : List (List ℕ)) (mode : Mode) (units : List UnitTree) (words : List (List ℕ)) (input : List ℕ) → SpendsLeast (RunC texts units mode words input) (UnitsSpent texts units mode words input) }
{}
