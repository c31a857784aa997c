ghost use Rattle.byte_mem.specs.Laws.{IsRetained, IsKept};

/// An object keeps what is stored (C11 6.2.4p2): the value of a scalar, and bytes, are loaded again as they
/// were stored, and what stands under another name is as before.
pub fn stores_are_retained()
    ensures { IsRetained }
{}

/// Where a memory says no more than another one, under a one-to-one map of names, each change and each
/// operator that is defined over the first is defined over the second, and its result says no more (own).
/// The proofs that a translation keeps a program's meaning rest on it.
pub fn order_is_kept()
    ensures { IsKept }
{}
