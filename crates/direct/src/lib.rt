//! The direct stand: it runs a routine from its table, on any bench. Load makes a program of a table, in
//! which names are looked up already; a machine runs the program, one instruction a beat.
#![tactic(auto)]

mod frame;
mod frames;
pub mod gone;
mod link;
mod linking;
mod loaded;
mod machine;
mod program;
mod run;
pub mod stand;

pub use gone::Gone;
pub use stand::Stand;
