ghost use Rattle.std.specs.Prelude.{◌≡◌};
ghost use Rattle.bench.specs.Reading.{read_under};

use super::Below;

/// Hundredths of a degree in a full turn.
pub const FULL_TURN: u16 = 36_000;

/// An angle in hundredths of a degree, less than a full turn.
pub type Angle = Below<FULL_TURN>;

impl Below<FULL_TURN> {
    /// The angle of a new bench.
    pub const ZERO: Angle = Below { value: 0 };

    /// This angle as it reads from the other side of the board, under a shift. Reading twice under
    /// one shift gives the angle back, so the same call also asks for an angle from there.
    pub fn read_under(self, shift: Angle) -> Angle
        ensures value { result ≡ read_under shift self }
        ensures twice { read_under shift result ≡ self }
    {
        let turn = FULL_TURN as u32;
        Below {
            value: ((shift.value as u32 + turn - self.value as u32) % turn) as u16,
        }
    }
}
