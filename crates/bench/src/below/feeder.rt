use super::Below;

/// One of the eight feeders, by its index.
pub type Feeder = Below<8>;

impl Below<8> {
    pub const FIRST: Feeder = Below { value: 0 };
}
