ghost use Rattle.cil_control.specs.Remains.{StartsAreFirst, TargetsAreEntered};
ghost use Rattle.cil_control.specs.Courses.{BodiesAreTaken, LabelsArePlaced};
ghost use Rattle.cil_control.specs.Leading.{BodiesLeadOn};

/// What remains of a run at a statement's first step is the statement from its start, with its surroundings behind it
/// (C11 6.8p3). A step is a place in the list that a body becomes (own).
pub fn starts_are_first()
    ensures { StartsAreFirst }
{}

/// What remains at the step of a label, case or default is the statement entered there, with its surroundings behind it
/// (C11 6.8.1, 6.8.6.1p2).
pub fn targets_are_entered()
    ensures { TargetsAreEntered }
{}

/// A body's run goes through its list of steps: from the first one on, what remains at each place is what the step there
/// does (C11 6.8). A jump forward is free, and one that leads back spends a unit (own).
pub fn bodies_are_taken()
    ensures { BodiesAreTaken }
{}

/// Where a body's labels are numbered in the order in which the text sets them, each once, the list of their places tells
/// the place of each by its number (C11 6.8.1p4; the numbers are own).
pub fn labels_are_placed()
    ensures { LabelsArePlaced }
{}

/// A body's list is not empty, and each of its steps leads to places of the list, and further on but by a spent unit: a
/// label that is not further on by a jump back, and a loop's body by its turn (C11 6.8.5, 6.8.6; units are own).
pub fn bodies_lead_on()
    ensures { BodiesLeadOn }
{}
