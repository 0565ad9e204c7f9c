ghost use Rattle.std.specs.Prelude.{◌≡◌, length, sum_by};
ghost use Rattle.bench.specs.States.{on_spot};
ghost use Rattle.benches.specs.Laid.{after};
ghost use Rattle.few.specs.Held.{held};

use super::placement::Placement;
use few::Few;

mod record;

/// Placements as the list of those made, oldest first. No two are on one site, so that there are
/// never more than sites.
#[derive(Clone, Copy)]
pub struct Log {
    placements: Few<Placement, 32>,
    ghost apart: { sum_by on_spot (after (held placements)) ≡ length (held placements) },
}
