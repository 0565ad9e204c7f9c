use variables::Variables;

/// Where a raised value lands: in the catch variable, and the run goes on at the address.
#[derive(Clone, Copy, PartialEq, Eq, Debug)]
pub struct Landing {
    pub catch: u8,
    pub address: u16,
}

/// What a save puts aside: the variable that is to have the result, the address of the rest, where a
/// raised value lands if it may land here, the variables, and the continuation and the handler of before,
/// which are cells told by their place.
// told by place and not boxed: the cells are memory of a fixed size, 32 of them
#[derive(Clone, Copy, PartialEq, Eq, Debug)]
pub struct Cell {
    pub result: u8,
    pub rest: u16,
    pub landing: Option<Landing>,
    pub variables: Variables,
    pub continuation: Option<u8>,
    pub handler: Option<u8>,
}

impl Cell {
    /// A cell that was never filled.
    pub const EMPTY: Cell = Cell {
        result: 0,
        rest: 0,
        landing: None,
        variables: Variables::ZERO,
        continuation: None,
        handler: None,
    };
}
