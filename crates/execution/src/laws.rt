ghost use Rattle.std.specs.Prelude.{◌≡◌, ℕ, Bool, false, List};
ghost use Rattle.cil_base.specs.declared.kinds.Mode.{Mode};
ghost use Rattle.execution.specs.Calls.{Linked};
ghost use Rattle.execution.specs.Linking.{Linkable, linked, AreDefinedOnce};
ghost use Rattle.execution.specs.Runs.{run, units_spent};
ghost use Rattle.execution.specs.Bounds.{AllTame, TameUnits};
ghost use Rattle.execution.specs.Laws.{CallsAreTheirStep, IsCutByBounds, SpendsLeast};

/// What calls do in a linked program whose bodies are tame is a fixed point: a call does what it does where the
/// calls in its body do so (own). A body is tame where it asks of calls nothing but what they do.
pub fn calls_are_their_step()
    ensures { (link : Linked) → AllTame link → CallsAreTheirStep link }
{}

/// A smaller bound only cuts a run: with units more, a run that has ended is the same, and one that is still
/// running goes on from its output (own).
pub fn bounds_only_cut()
    ensures { (units : List (List Linkable)) → TameUnits units → (mode : Mode) (words : List (List ℕ)) (input : List ℕ) → IsCutByBounds (run units mode words input) }
{}

/// The units that an ended run has spent are its least bound: there it ends so too, and at each smaller bound it
/// is still running (own).
pub fn ended_runs_spend_their_least_bound()
    ensures { (units : List (List Linkable)) → TameUnits units → (mode : Mode) (words : List (List ℕ)) (input : List ℕ) → SpendsLeast (run units mode words input) (units_spent units mode words input) }
{}

/// Where no name has more than one definition (C11 6.9p5), it does not count whether tentative definitions of several
/// units are common (J.5.11): the same is linked.
pub fn one_definition_links_alike()
    ensures { (common : Bool) (units : List (List Linkable)) → AreDefinedOnce units → linked common units ≡ linked false units }
{}
