use super::machine::Machine;
use language::Progress;

mod going;

/// A run: where it is, and the machine, whose state counts until the run has ended.
#[derive(Drop)]
pub struct Run {
    pub progress: Progress,
    pub machine: Machine,
}
