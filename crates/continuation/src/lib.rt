//! The continuation stand: it runs the bytes of a table's translation, on any bench.
#![tactic(auto)]

mod cell;
mod cells;
mod decoding;
mod machine;
pub mod made;
mod program;
