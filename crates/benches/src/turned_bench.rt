ghost use Rattle.std.specs.Prelude.{◌≡◌, ℕ, ◌*◌, pos, ◌<ℤ◌};
ghost use Rattle.bench.specs.Bounds.{feeder_count, full_turn};
ghost use Rattle.bench.specs.Reading.{spot_under, state_under};
ghost use Rattle.bench.specs.SetUps.{TurnsBy};
ghost use Rattle.bench.specs.Sight.{Spot as Spotted, sight};
ghost use Rattle.benches.specs.Turned.{turned_valid};

use super::inspect::Inspect;
use bench::{Action, Angle, Bench, FULL_TURN, Fault, Request, ShiftRefusal, State};

/// A bench that stands on another, and reads every angle of it from the other side of the board,
/// under a shift. The bench below may be turned itself.
#[derive(Drop)]
pub struct TurnedBench<B> {
    below: B,
    shift: Angle,
}

impl<B: Bench> TurnedBench<B> {
    /// Turns a bench, whose state stays. What is no angle is refused as a shift; the shift is then 0.
    pub fn new(below: B, shift: i32) -> (TurnedBench<B>, Result<(), ShiftRefusal>)
        ensures shift { TurnsBy shift result.1 result.0.shift }
        ensures below { result.0.below ≡ below }
    {
        // a match: each case gives a shift and an answer
        let (shift, answer) = match Angle::new(shift) {
            Some(angle) => (angle, Ok(())),
            None => (Angle::ZERO, Err(ShiftRefusal::ShiftOutOfRange)),
        };
        (TurnedBench { below, shift }, answer)
    }
}

/// What a look at a spot answered below, as a look answers it under a shift. No part stays no part.
fn sight_under(shift: Angle, seen: i32) -> i32
    requires { seen <ℤ pos (feeder_count * full_turn) }
    ensures { (p : Spotted) → seen ≡ sight p → result ≡ sight (spot_under shift p) }
{
    let turn = FULL_TURN as i32;
    // a match: with `map_or` the proof did not close
    match Angle::new(seen % turn) {
        Some(angle) => seen / turn * turn + angle.read_under(shift).get() as i32,
        None => seen,
    }
}

impl<B: Bench> Bench for TurnedBench<B> {
    ghost state = { λ t. state_under t.shift (B.Bench.state t.below) };

    ghost valid = { λ b. turned_valid b.shift (B.Bench.state b.below) (B.Bench.valid b.below) };

    fn request(&mut self, request: Request) -> Result<i32, Fault> {
        match Action::try_from(request)? {
            Action::Turn(angle) => {
                let below = Action::Turn(angle.read_under(self.shift));
                self.below.request(Request::from(below))
            }
            Action::Look(_) => {
                let seen = self.below.request(request)?;
                Ok(sight_under(self.shift, seen))
            }
            _ => self.below.request(request),
        }
    }
}

impl<B: Inspect> Inspect for TurnedBench<B> {
    fn snapshot(&self) -> State {
        self.below.snapshot().read_under(self.shift)
    }
}
