ghost use Rattle.host_calls.specs.Laws.{HostKeepsOrder};

/// Where the arguments and the memory of a call say no more than those of another, under a one-to-one map of
/// names that keeps each object of `malloc` under its number, the call is undefined or its result and the
/// state after it say no more than the other's; and where they differ in names alone, so do the results (own).
pub fn host_keeps_order()
    ensures { HostKeepsOrder }
{}
