//! The parts of which the code of expressions is put together: what is made of a function, places that are kept, operands that are saved,
//! choices, steps, calls and constants.
//!
//! Its public contract says what is put behind code, and when; want of memory is the one other answer.
//!
//! The order of evaluation and the temporaries are own where C11 6.5 leaves them open; docs/LOWERING.md has each construct with its code.
#![tactic(auto)]

mod calls;
mod constants;
mod output;
mod places;
mod results;
mod shapes;

pub use calls::{
    argument, before_effects, by_name, by_pointer, call_for_effect, call_for_value, called_by_name,
};
pub use output::{FunctionOut, UnitOut};
pub use places::{
    Kept, address_of, clear, decayed, element, element_at, held, is_part, keep, left_place,
    left_value, member, member_of_value, named, part, part_type, read, saved, store, store_part,
    value_of, variable,
};
pub use results::{
    Computing, binary_operand, choose, compute, computes, constant_of, constant_operand, converted,
    converted_from, converted_operand, decide, old_value, short_circuit, short_circuit_effects,
    step, step_op, stepped, value_at,
};
pub use shapes::{element_of, impossible, is_void, param_of, result_of};
