//! The definitions of what values of C's types are: the operators that the meanings of CIL, of C and of typed units share.
//!
//! It has no code and no public calls: its definitions say, for the types of a program or of a translation unit, the kind of each type, and what
//! each cast, operator and test gives of values of such types in a memory; with which functions a program may begin, by their types, and what
//! constants are where the entities of a run have numbers.
//!
//! The rules come from C11 5.1.2.2.1 (main), 6.2.5 (types), 6.3 (conversions), 6.5.3.3, 6.5.4 (unary operators and casts), 6.5.5 to 6.5.12 (binary
//! operators), 6.6 (constants) and 6.8.4.1 (tests); where the project's profile decides, a definition says that it is own.
#![tactic(auto)]
