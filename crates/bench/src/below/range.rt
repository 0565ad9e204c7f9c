ghost use Rattle.std.specs.Prelude.{◌≡◌};
ghost use Rattle.bench.specs.Ranges.{below_at};

use super::Below;

impl<const N: u16> Below<N> {
    /// What a number stands for, if it lies below the bound.
    pub fn new(number: i32) -> Option<Below<N>>
        ensures { result ≡ below_at N number }
    {
        if number >= 0 && number < N as i32 {
            Some(Below {
                value: number as u16,
            })
        } else {
            None
        }
    }

    /// The number that it stands for.
    pub fn get(self) -> u16
        ensures { result ≡ self.entry.value }
    {
        self.value
    }
}
