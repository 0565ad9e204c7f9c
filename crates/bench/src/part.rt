ghost use Rattle.std.specs.Prelude.{◌≡◌, pos};
ghost use Rattle.bench.specs.Reading.{part_under};
ghost use Rattle.bench.specs.Sight.{part_sight};

use super::below::angle::{Angle, FULL_TURN};
use super::below::feeder::Feeder;

/// A part on the board: the feeder that it came from, and the angle at which it was placed.
#[derive(Clone, Copy, PartialEq, Eq, Debug)]
pub struct Part {
    pub feeder: Feeder,
    pub angle: Angle,
}

impl Part {
    /// What a look at this part answers: feeder and angle in one number.
    pub fn sight(self) -> i32
        ensures { result ≡ part_sight self }
    {
        self.feeder.get() as i32 * FULL_TURN as i32 + self.angle.get() as i32
    }

    /// The part as it reads under a shift.
    pub fn read_under(self, shift: Angle) -> Part
        ensures { result ≡ part_under shift self }
    {
        Part {
            angle: self.angle.read_under(shift),
            ..self
        }
    }
}
