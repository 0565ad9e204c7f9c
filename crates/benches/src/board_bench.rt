ghost use Rattle.std.specs.Prelude.{◌≡◌, ◌+◌, ◌≤◌, ⊤, sum_by, sum};
ghost use Rattle.bench.specs.Bounds.{most_parts};
ghost use Rattle.bench.specs.States.{in_nozzle, on_spot};

use super::entries::Entries;
use super::head::Head;
use super::log::Log;
use super::sites::Sites;
use std::alloc::AllocError;

mod rules;

/// A bench of its own, by what keeps its placements.
pub struct BoardBench<S: Sites> {
    head: Head,
    sites: S,
    ghost few: { sum head.counts + in_nozzle head.nozzle + sum_by on_spot (S.spots sites) + head.bin ≤ most_parts },
}

/// A bench that keeps one entry for each site.
pub type SiteBench = BoardBench<Entries>;

/// A bench that keeps the placements in the order in which they were made.
pub type LogBench = BoardBench<Log>;

// by hand: no copy of a generic struct with an invariant can be derived
impl<S: Sites> Clone for BoardBench<S> {
    ghost is_clone = { λ x y. y ≡ x };

    ghost is_infallible = { λ _. ⊤ };

    fn clone(&self) -> Result<BoardBench<S>, AllocError> {
        Ok(*self)
    }
}

impl<S: Sites> Copy for BoardBench<S> {}
