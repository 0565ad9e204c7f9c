/// One of the nine forms. Variables are `x`, `y`, `z`, by number, the parameters first; the last
/// four forms close a block.
// fields and no structs or lists inside the cases: the rules name the fields of each form, and what stands in the
// places of arguments that are not passed is a rule of the table
#[derive(Clone, Copy, PartialEq, Eq, Debug)]
pub enum Instruction {
    /// Sets `x` to `value`.
    Constant {
        x: u8,
        value: i32,
    },
    /// Sets `x` to `y`.
    Move {
        x: u8,
        y: u8,
    },
    /// Sets `x` to `y` less `z`.
    Difference {
        x: u8,
        y: u8,
        z: u8,
    },
    /// Asks the bench for `operation` on `y`, and sets `x` to its answer.
    Request {
        x: u8,
        operation: u8,
        y: u8,
    },
    /// Calls `routine` with the first `count` arguments, and sets `x` to what it returns.
    Call {
        x: u8,
        routine: u8,
        count: u8,
        arguments: [u8; 4],
    },
    /// Goes to a block.
    Goto {
        label: u8,
    },
    /// Returns `x`.
    Return {
        x: u8,
    },
    /// Goes to one block if `x` is at most `y`, else to the other.
    Branch {
        x: u8,
        y: u8,
        then: u8,
        otherwise: u8,
    },
    /// Raises `x`.
    Raise {
        x: u8,
    },
}
