ghost use Rattle.std.specs.Prelude.{◌≡◌, ◌<◌, ◌≤◌, None, List, slice_index, slice_index_or};
ghost use Rattle.bench.specs.Bounds.{most_parts};
ghost use Rattle.bench.specs.Respond.{pick_into, place_on, drop_from};
ghost use Rattle.bench.specs.Sight.{Spot as Spotted};
ghost use Rattle.bench.specs.States.{parts};
ghost use Rattle.benches.specs.Heads.{over, Serves};

use super::super::sites::Sites;
use super::Head;
use bench::{Fault, Feeder, Part};

impl Head {
    /// Takes a part from a feeder into the nozzle, and answers how many are left there.
    pub(super) fn pick(&mut self, feeder: Feeder) -> Result<i32, Fault>
        ensures { (spots : List Spotted) → Serves (pick_into (over self.old spots) feeder self.old.nozzle (slice_index self.old.counts feeder.value)) result (over self.new spots) }
    {
        if self.nozzle.is_some() {
            return Err(Fault::NozzleFull);
        }
        let place = feeder.get() as usize;
        let left = self.counts[place].checked_sub(1).ok_or(Fault::FeederEmpty)?;
        self.counts[place] = left;
        self.nozzle = Some(feeder);
        Ok(left as i32)
    }

    /// Puts the held part on the current site, and answers the site.
    pub(super) fn place<S: Sites>(&mut self, sites: &mut S) -> Result<i32, Fault>
        ensures { Serves (place_on (over self.old (S.spots sites.old)) self.old.nozzle (slice_index_or (S.spots sites.old) self.old.site.value None)) result (over self.new (S.spots sites.new)) }
    {
        let feeder = self.nozzle.ok_or(Fault::NozzleEmpty)?;
        if sites.at(self.site).is_some() {
            return Err(Fault::SiteTaken);
        }
        let angle = self.angle;
        sites.put(self.site, Part { feeder, angle });
        self.nozzle = None;
        Ok(self.site.get() as i32)
    }

    /// Drops the held part into the bin.
    pub(super) fn discard(&mut self) -> Result<i32, Fault>
        requires { (spots : List Spotted) × (parts (over self.old spots) ≤ most_parts) }
        ensures { (spots : List Spotted) → Serves (drop_from (over self.old spots) self.old.nozzle) result (over self.new spots) }
    {
        self.nozzle.take().ok_or(Fault::NozzleEmpty)?;
        self.bin += 1;
        Ok(0)
    }
}
