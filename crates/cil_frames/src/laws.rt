ghost use Rattle.cil_frames.specs.Frames.{FramesAreMeant};
ghost use Rattle.cil_frames.specs.Growing.{RunsOnlyGrow};
ghost use Rattle.cil_frames.specs.Loaded.{LoadedFunctionsAreMeant};

/// What becomes of the whole run at a call, and at the end of a body, where frames wait for the results of calls: a
/// call of a loaded function spends a unit and pushes a frame, a call of the host goes on behind it, and the end of a
/// body pops a frame, which keeps the result (C11 6.5.2.2, 6.8.6.4).
pub fn frames_are_meant()
    ensures { FramesAreMeant }
{}

/// A loaded function means what the program's function does, where its body is loaded, leads on, and its kinds and
/// objects are the program's (C11 6.9.1).
pub fn loaded_functions_are_meant()
    ensures { LoadedFunctionsAreMeant }
{}

/// However a run goes on, it takes nothing back: units are only spent, output is only added, and where the end of the
/// input was found it stays found, in what remains at each place and in what waiting frames make of a result
/// (C11 7.21.7.1p3, 7.21.7.3; the units are own).
pub fn runs_only_grow()
    ensures { RunsOnlyGrow }
{}
