//! The definitions of what a list of C translation units is refused for, over their bytes, and of which lists are accepted.
//!
//! It has no code and no public calls: `FaultAt` says which refusal comes first, by the bytes of the units, their tokens, their grammar, the walk
//! over each, and what only several of them show; `Accepted` that there is none. How types of several units go together is a parameter.
//!
//! The rules come from C11 5.1.1.2 (phases of translation), 6.9p5 (external definitions) and those of the crates below; the order of refusals is own.
#![tactic(auto)]
