use super::kind::Kind;

/// Two benches, by how each keeps its placements, and the counts with which both are set up.
#[derive(Clone, Copy, PartialEq, Eq, Debug)]
pub struct Pairing {
    pub first: Kind,
    pub second: Kind,
    pub counts: [i32; 8],
}
