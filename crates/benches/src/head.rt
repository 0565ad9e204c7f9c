ghost use Rattle.std.specs.Prelude.{◌≡◌, ℕ, ◌<◌, ◌≤◌, length, slice_index};
ghost use Rattle.bench.specs.Bounds.{feeder_count, most_in_feeder};

use bench::{Angle, Feeder, Site};

mod parts;
mod serve;
mod set_up;

/// A bench but for its sites.
#[derive(Clone, Copy)]
pub struct Head {
    pub site: Site,
    pub angle: Angle,
    pub nozzle: Option<Feeder>,
    pub counts: [u16; 8],
    pub bin: u16,
    ghost eight: { length counts ≡ feeder_count },
    ghost counted: { (k : ℕ) → k < feeder_count → slice_index counts k ≤ most_in_feeder },
}
