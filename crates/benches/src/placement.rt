use bench::{Part, Site};

/// One placement: where, and which part at which angle.
#[derive(Clone, Copy, PartialEq, Eq, Debug)]
pub struct Placement {
    pub site: Site,
    pub part: Part,
}
