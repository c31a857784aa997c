//! Tests of the machine that the program cannot show: runs over sources and sinks that move few bytes at once, or that fail in one call, runs within no
//! unit, and how many units a run that was cut off has used. What else programs do is in `tests/runs.txt`.
#![tactic(auto)]

#[cfg(test)]
mod bounds;
#[cfg(test)]
mod faults;
#[cfg(test)]
mod machine;
