use script::Answer;

/// What two benches answered to one event.
#[derive(Clone, Copy, PartialEq, Eq, Debug)]
pub struct Exchange {
    pub first: Answer,
    pub second: Answer,
}
