use super::Below;

/// One of the 32 sites of the board, by its index.
pub type Site = Below<32>;

impl Below<32> {
    /// The site over which the head of a new bench stands.
    pub const FIRST: Site = Below { value: 0 };
}
