ghost use Rattle.std.specs.Prelude.{◌≡◌, ℕ, ◌+◌, ◌<◌, ◌≤◌, pos, MatchResult, slice_index};
ghost use Rattle.bench.specs.Bounds.{feeder_count, most_in_feeder};
ghost use Rattle.bench.specs.Ranges.{Outside};
ghost use Rattle.bench.specs.SetUps.{SetsUp};
ghost use Rattle.bench.specs.States.{fresh};
ghost use Rattle.benches.specs.Heads.{over};
ghost use Rattle.benches.specs.Spots.{all_free};

use super::Head;
use bench::{Angle, SetUpRefusal, Site};

/// The most parts that a feeder is set up with.
const MOST_IN_FEEDER: u16 = 999;

impl Head {
    /// The head of a new bench. A count out of range is refused, and the bench then has no parts.
    pub fn set_up(counts: [i32; 8]) -> (Head, Result<(), SetUpRefusal>)
        ensures { SetsUp counts result.1 (over result.0 all_free) }
    {
        match counts.try_map(count_of) {
            Ok(parts) => (Head::with_counts(parts), Ok(())),
            Err(refusal) => (Head::with_counts([0; 8]), Err(refusal)),
        }
    }

    /// The head of a new bench with these counts.
    fn with_counts(counts: [u16; 8]) -> Head
        requires { (k : ℕ) → k < feeder_count → slice_index counts k ≤ most_in_feeder }
        ensures { over result all_free ≡ fresh counts }
    {
        Head {
            site: Site::FIRST,
            angle: Angle::ZERO,
            nozzle: None,
            counts,
            bin: 0,
        }
    }
}

/// A number as the count of a feeder.
fn count_of(number: i32) -> Result<u16, SetUpRefusal>
    ensures { MatchResult result (λ n. (number ≡ pos n) × (n ≤ most_in_feeder)) (λ e. (e ≡ SetUpRefusal.CountOutOfRange) × Outside (most_in_feeder + 1) number) }
{
    match u16::try_from(number) {
        Ok(count) if count <= MOST_IN_FEEDER => Ok(count),
        _ => Err(SetUpRefusal::CountOutOfRange),
    }
}
