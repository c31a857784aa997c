//! Tests of the printer and the reader of CIL texts: a program with each construct of the language, built by hand, is printed as the text that
//! was written by hand from the rules of the text, which is read again; so are aggregates, numbers and long types; and other texts, and bytes that are
//! none, are read or refused at the place that is defined for them.
//!
//! The programs and texts are own.
#![tactic(auto)]

#[cfg(test)]
mod aggregate_tests;
#[cfg(test)]
mod builder;
#[cfg(test)]
mod equal;
#[cfg(test)]
mod functions;
#[cfg(test)]
mod objects;
#[cfg(test)]
mod program;
#[cfg(test)]
mod read_tests;
#[cfg(test)]
mod sample_text;
#[cfg(test)]
mod stop;
#[cfg(test)]
mod tests;
#[cfg(test)]
mod types;
#[cfg(test)]
mod words;
