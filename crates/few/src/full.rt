/// Every place is taken.
#[derive(Clone, Copy, PartialEq, Eq, Debug)]
pub struct Full;
