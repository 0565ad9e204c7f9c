//! A list of at most so many values, in memory of a fixed size: what the machine's stated bounds are
//! kept in: records, headings, links, addresses, frames, cells, placements, and the words of an instruction.
#![tactic(auto)]

pub mod few;
pub mod full;

pub use few::Few;
pub use full::Full;
