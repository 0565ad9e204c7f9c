//! Three benches that keep the request rules: one that keeps an entry for each site, one that keeps
//! a log of placements, and one that reads the angles of another bench from the other side.
#![tactic(auto)]

pub mod board_bench;
mod entries;
mod head;
pub mod inspect;
mod log;
mod placement;
mod sites;
pub mod turned_bench;

pub use board_bench::{BoardBench, LogBench, SiteBench};
pub use inspect::Inspect;
pub use turned_bench::TurnedBench;
