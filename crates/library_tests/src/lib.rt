//! The tests of the libraries: what their contracts leave open, and that they say what the standards say.
//!
//! A test is a table of rows, each of which says what is done and what must come of it.
//! Not here: what the programs can show, which is in `cases/`.
#![tactic(auto)]

#[cfg(test)]
mod tests;
