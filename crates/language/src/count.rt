ghost use Rattle.language.specs.Asked.{Asked};

/// The most beats of one go.
const MOST_BEATS: u32 = 100_000;

/// How many beats a go is asked for, if that is a number of beats: 0 to 100,000.
pub fn beats_asked(count: i32) -> Option<u32>
    ensures { Asked count result }
{
    u32::try_from(count)
        .ok()
        .filter(|beats| *beats <= MOST_BEATS)
}
