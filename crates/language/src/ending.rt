/// How a run ends.
#[derive(Clone, Copy, PartialEq, Eq, Debug)]
pub enum Ending {
    /// The outermost routine returned this value.
    Returned(i32),
    /// This value was raised, and no handler took it.
    Raised(i32),
    /// A routine was called with 32 frames standing.
    Exhausted,
}
