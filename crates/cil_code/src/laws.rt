ghost use Rattle.cil_code.specs.Running.{FittingBodiesRun, LoadedBodiesRun};

/// A loaded body runs in linked programs from step to step: what remains at each place is what the step of the code does
/// there, and at the first one it is the body's run (C11 6.8), where the body's labels are numbered in the order of the
/// text and its expressions and places fit.
pub fn loaded_bodies_run()
    ensures { LoadedBodiesRun }
{}

/// Each function's body in a unit that can be linked runs so once it is loaded: its labels are numbered in the order of
/// the text, and its expressions and places fit, each argument of a call among them (C11 6.5.2.2, 6.9.1).
pub fn fitting_bodies_run()
    ensures { FittingBodiesRun }
{}
