/// What a word of continuation form does. `x`, `y`, `z` are variables by number; beside them there is
/// one register more, number 16. An address is that of a word.
#[derive(Clone, Copy, PartialEq, Eq, Debug)]
pub enum Operation {
    /// `C`: sets `x` to `value`.
    Set {
        x: u8,
        value: i32,
    },
    /// `M`: sets `x` to `y`.
    Assign {
        x: u8,
        y: u8,
    },
    /// `S`: sets `x` to `y` less `z`.
    Subtract {
        x: u8,
        y: u8,
        z: u8,
    },
    /// `A`: asks the bench for `operation` on `y`. A number goes to `x`, and the next word is passed
    /// over; a fault goes to `catch`, and the next word runs.
    Ask {
        x: u8,
        operation: u8,
        y: u8,
        catch: u8,
    },
    /// `L`: saves the variables, the continuation and the handler in a cell, which becomes the
    /// continuation, whose value is to go to `x`. With a catch variable it becomes the handler too.
    Save {
        x: u8,
        catch: Option<u8>,
    },
    /// `F`: binds the first `count` arguments to the first variables, clears the others, and goes on
    /// at the address.
    Enter {
        count: u8,
        address: u16,
        arguments: [u8; 4],
    },
    /// `J`: goes on at the address.
    Jump {
        address: u16,
    },
    /// `T`: hands `x` to the continuation.
    Resume {
        x: u8,
    },
    /// `I`: goes on at the next word if `x` is at most `y`, else at the one after it.
    Test {
        x: u8,
        y: u8,
    },
    /// `H`: hands `x` to the handler.
    Throw {
        x: u8,
    },
}
