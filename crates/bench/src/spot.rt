ghost use Rattle.std.specs.Prelude.{◌≡◌};
ghost use Rattle.bench.specs.Reading.{spot_under};
ghost use Rattle.bench.specs.Sight.{sight};

use super::below::angle::Angle;
use super::part::Part;

/// What is at a site: a part, or nothing.
pub type Spot = Option<Part>;

/// What a look at a spot answers: -1, or what a look at its part answers.
pub fn sight(spot: Spot) -> i32
    ensures { result ≡ sight spot }
{
    spot.map_or(-1, |part| part.sight())
}

/// The spot as it reads under a shift.
pub fn read_under(spot: Spot, shift: Angle) -> Spot
    ensures { result ≡ spot_under shift spot }
{
    spot.map(|part| part.read_under(shift))
}
