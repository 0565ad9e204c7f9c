ghost use Rattle.std.specs.Prelude.{◌≡◌, length};
ghost use Rattle.bench.specs.Bounds.{site_count};

use super::sites::Sites;
use bench::{Part, Site, Spot};

/// Placements as one entry for each site.
#[derive(Clone, Copy)]
pub struct Entries {
    spots: [Spot; 32],
    ghost all: { length spots ≡ site_count },
}

impl Sites for Entries {
    ghost spots = { λ e. e.spots };

    ghost all = { λ e. e.all };

    fn new() -> Entries {
        Entries { spots: [None; 32] }
    }

    fn at(&self, site: Site) -> Spot {
        self.spots[site.get() as usize]
    }

    fn put(&mut self, site: Site, part: Part) {
        self.spots[site.get() as usize] = Some(part);
    }

    fn list(&self) -> [Spot; 32] {
        self.spots
    }
}
