//! The static rules of C over plain types and typed expressions: types with their sizes, conversions, operators, constraints, constants.
//!
//! It has no code and no public calls: its definitions say of one operator over typed operands which typed expression it is or which constraint
//! it violates first, and what constants and literals are. The meaning of C, the faults of units and the contracts of the code cite them.
//!
//! The rules come from C11 6.2.5 and 6.2.7 (types), 6.3 (conversions), 6.4.4 and 6.4.5 (constants), 6.5 (expressions), 6.6 (constant
//! expressions) and 6.8 (controlling expressions); where the project's profile decides, a definition says that it is own.
#![tactic(auto)]
