//! What every other crate of the product speaks of: names, source locations, diagnostics, tokens, integer
//! arithmetic and the outcomes of runs.
//!
//! Its public contract gives the pool of names as the list of texts in first-seen order, in which each
//! stands once, arithmetic and conversion as C11 6.2.5, 6.3.1 and 6.5 have them, and each table as written.
//!
//! The rules come from C11 5.1.2.3 (outcomes), 6.2.5 and 6.3.1 (integers), 6.4 (tokens) and 6.5 (operators).
#![tactic(auto)]

mod bytes;
mod constants;
mod conversion;
mod faults;
mod host;
mod kinds;
mod limits;
mod memory;
mod names;
mod numbers;
mod operations;
mod operators;
mod runs;
mod tokens;

pub use bytes::Bytes;
pub use constants::Constant;
pub use conversion::wrap;
pub use faults::{Code, Fault, Feature, Place, Refusal, RuleStop, Stop, What};
pub use host::{HOST_NAMES, host_names, is_host_name};
pub use kinds::{Abi, IntKind, Mode};
pub use limits::{
    FUNCTION_LOCALS, INITIALISED_SCALARS, OBJECT_BYTES, RUN_STEPS, TEXT_BYTES, TOTAL_BYTES,
    UNIT_BYTES,
};
pub use memory::Memory;
pub use names::{Bases, NamePool};
pub use numbers::{AggId, EntityId, LabelId, LocalId, NameId, TypeId, UnitNo};
pub use operations::arith;
pub use operators::{BinOp, UnOp};
pub use runs::{Env, Outcome};
pub use tokens::{KEYWORDS, Keyword, PUNCTUATORS, Punctuator, Token, TokenKind};
