ghost use Rattle.std.specs.Prelude.{◌≡◌, None, Some, List, length, slice_index_or, slice_set};
ghost use Rattle.bench.specs.Bounds.{site_count};
ghost use Rattle.bench.specs.Sight.{Spot as Spotted};
ghost use Rattle.benches.specs.Spots.{all_free};

use bench::{Part, Site, Spot};

/// What keeps the placements of a bench.
pub trait Sites: Copy {
    // what is at each site
    ghost spots: { Self → List Spotted };

    /// Every site is free.
    fn new() -> Self
        ensures { spots result ≡ all_free };

    fn at(&self, site: Site) -> Spot
        ensures { result ≡ slice_index_or (spots self.now) site.value None };

    /// Puts a part on a free site.
    fn put(&mut self, site: Site, part: Part)
        requires { slice_index_or (spots self.old) site.value None ≡ None }
        ensures { spots self.new ≡ slice_set (spots self.old) site.value (Some part) };

    fn list(&self) -> [Spot; 32]
        ensures { result ≡ spots self.now };

    ghost all: { (s : Self) → length (spots s) ≡ site_count };
}
