use language::Handler;
use variables::Variables;

/// What a call saves: the routine that calls, the handler of its block, the place of the record after
/// the call, its variables, and the variable that is to have the result.
#[derive(Clone, Copy, PartialEq, Eq, Debug)]
pub struct Frame {
    pub routine: u8,
    pub handler: Option<Handler>,
    pub next: u16,
    pub variables: Variables,
    pub result: u8,
}

impl Frame {
    /// A frame that was never filled.
    pub const EMPTY: Frame = Frame {
        routine: 0,
        handler: None,
        next: 0,
        variables: Variables::ZERO,
        result: 0,
    };
}
