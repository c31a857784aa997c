ghost use Rattle.std.specs.Prelude.{Bool, List};
ghost use Rattle.byte_mem.specs.Below.{Names};
ghost use Rattle.execution.specs.Likeness.{Same};
ghost use Rattle.execution.specs.Linking.{Linkable};
ghost use Rattle.simulation_laws.specs.Changes.{ChangesAlone, ChangesMove};
ghost use Rattle.simulation_laws.specs.Fitted.{DataFit, HostStays};
ghost use Rattle.simulation_laws.specs.Fitting.{HostFits, ValuesFit};
ghost use Rattle.simulation_laws.specs.Kinds.{TypesAreStored};
ghost use Rattle.simulation_laws.specs.Starts.{AlikeUnits, StartAlike};

/// Where one memory says no more than another, each of them may change alone: the first to what says no more than the
/// second has, the second under a name that the first has not (own).
pub fn one_side_changes_alone()
    ensures { (f : Names) → ChangesAlone f }
{}

/// Changes of one object on two sides, and stores, begin no object, change nothing else and take no object's room
/// (C11 6.2.4p2, 6.5.16.1p2).
pub fn changes_move()
    ensures { ChangesMove }
{}

/// What is converted, computed and loaded is a value of its kind (C11 6.2.6.1p5, 6.3.1.3, 6.5p5).
pub fn values_fit()
    ensures { ValuesFit }
{}

/// What the host gives is a value of the kind that the caller asked for (C11 7.21.7, 7.22.3; own).
pub fn host_results_fit()
    ensures { HostFits }
{}

/// Data that are loaded, and those that nobody has given, fit their kinds; what fits comes back as it was stored; a call of
/// the host gives data of the kind that its caller asked for (C11 6.2.4p2, 6.5.2.2, 6.5.16.1p2).
pub fn data_fit()
    ensures { DataFit }
{}

/// Calls of the host on two sides begin no object of an activation, leave what the first side has not of them, and take no
/// room of theirs, if the first call is not undefined (C11 7.21.7, 7.22.3; own).
pub fn host_calls_stay()
    ensures { HostStays }
{}

/// Units that link alike, with the same functions and object by object as the order of bytes says, have the same entities,
/// mean what corresponds, and start in memories of which the first says no more (C11 5.1.2p1, 6.2.2p2), whether tentative
/// definitions of several units are common or not (J.5.11). It is proved of any relation of functions.
pub fn units_start_alike()
    ensures { (common : Bool) (us vs : List (List Linkable)) → AlikeUnits Same us vs → StartAlike Same common us vs }
{}

/// A complete type of a program that is no array has a kind, has the size of that kind, and is read as itself
/// (C11 6.2.5p1, 6.2.6.1, 6.3.2.1p2).
pub fn types_are_stored()
    ensures { TypesAreStored }
{}
