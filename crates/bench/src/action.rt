ghost use Rattle.std.specs.Prelude.{◌≡◌};
ghost use Rattle.bench.specs.Actions.{action_of, request_of};

use super::below::angle::Angle;
use super::below::feeder::Feeder;
use super::below::site::Site;
use super::fault::Fault;
use super::request::Request;

/// A request that says what to do, its number in range.
#[derive(Clone, Copy, PartialEq, Eq, Debug)]
pub enum Action {
    Move(Site),
    Turn(Angle),
    Pick(Feeder),
    Place,
    Look(Site),
    Discard,
}

/// What a request asks for, or why that cannot be told.
impl TryFrom<Request> for Action {
    type Error = Fault;

    ghost try_from_gives = { λ q r. r ≡ action_of q.operation q.number };

    fn try_from(request: Request) -> Result<Action, Fault> {
        let number = request.number;
        match request.operation {
            0 => Ok(Action::Move(Site::new(number).ok_or(Fault::NoSite)?)),
            1 => Ok(Action::Turn(Angle::new(number).ok_or(Fault::NoAngle)?)),
            2 => Ok(Action::Pick(Feeder::new(number).ok_or(Fault::NoFeeder)?)),
            3 => Ok(Action::Place),
            4 => Ok(Action::Look(Site::new(number).ok_or(Fault::NoSite)?)),
            5 => Ok(Action::Discard),
            _ => Err(Fault::NoOperation),
        }
    }
}

/// The request that asks for an action; one that needs no number has the number 0.
impl From<Action> for Request {
    ghost from_gives = { λ act q. q ≡ request_of act };

    fn from(action: Action) -> Request {
        let (operation, number) = match action {
            Action::Move(site) => (0, site.get()),
            Action::Turn(angle) => (1, angle.get()),
            Action::Pick(feeder) => (2, feeder.get()),
            Action::Place => (3, 0),
            Action::Look(site) => (4, site.get()),
            Action::Discard => (5, 0),
        };
        Request {
            operation,
            number: number as i32,
        }
    }
}
