use super::frames::Frames;
use language::Handler;
use variables::Variables;

mod beat;
mod go;
mod moves;
mod raise;

/// A run between two beats: the routine that runs, the handler of its block, the place of its record,
/// its variables and the frames that stand.
// what the rules reach is said of machine and table together: no invariant, and program and bench are handed on
#[derive(Drop)]
pub struct Machine {
    pub routine: u8,
    pub handler: Option<Handler>,
    pub at: u16,
    pub variables: Variables,
    pub frames: Frames,
}
