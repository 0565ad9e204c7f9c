use super::cells::Cells;
use variables::Variables;

mod beat;
mod moves;
mod step;

/// A run between two steps: the program counter, the variables, register 16, the continuation and the
/// handler, which are cells told by their place, or the outermost, and the cells.
// what the rules reach is said of machine, table and bench together, and that a word stands at the counter holds
// before a step and not after each move: no invariants, and program and bench are handed on
#[derive(Drop)]
pub struct Machine {
    pub counter: u16,
    pub variables: Variables,
    pub register: i32,
    pub continuation: Option<u8>,
    pub handler: Option<u8>,
    pub cells: Cells,
}
