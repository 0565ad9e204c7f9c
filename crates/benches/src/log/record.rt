ghost use Rattle.few.specs.Held.{held};
ghost use Rattle.benches.specs.Laid.{after};
ghost use Rattle.benches.specs.LaidLemmas.{length_after};

use super::super::placement::Placement;
use super::super::sites::Sites;
use super::Log;
use bench::{Angle, Feeder, Part, Site, Spot};
use few::Few;

/// What stands in the places of a log that no placement has taken.
const UNUSED: Placement = Placement {
    site: Site::FIRST,
    part: Part {
        feeder: Feeder::FIRST,
        angle: Angle::ZERO,
    },
};

impl Sites for Log {
    ghost spots = { λ l. after (held l.placements) };

    ghost all = { λ l. length_after (held l.placements) };

    fn new() -> Log {
        Log {
            placements: Few::new(UNUSED),
        }
    }

    fn at(&self, site: Site) -> Spot {
        self.placements
            .as_slice()
            .iter()
            .rev()
            .find(|placement| placement.site == site)
            .map(|placement| placement.part)
    }

    fn put(&mut self, site: Site, part: Part) {
        self.placements.push(Placement { site, part }).unwrap();
    }

    fn list(&self) -> [Spot; 32] {
        let mut spots = [None; 32];
        for placement in self.placements.as_slice() {
            spots[placement.site.get() as usize] = Some(placement.part);
        }
        spots
    }
}
