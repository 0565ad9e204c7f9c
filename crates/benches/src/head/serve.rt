ghost use Rattle.std.specs.Prelude.{◌≡◌, ◌≤◌};
ghost use Rattle.bench.specs.Bounds.{most_parts};
ghost use Rattle.bench.specs.Respond.{respond};
ghost use Rattle.bench.specs.States.{parts};
ghost use Rattle.benches.specs.Heads.{over};

use super::super::sites::Sites;
use super::Head;
use bench::{Action, Fault, Request, State, spot};

impl Head {
    /// Serves one request, over what keeps the placements of the bench.
    pub fn serve<S: Sites>(&mut self, sites: &mut S, request: Request) -> Result<i32, Fault>
        requires { parts (over self.old (S.spots sites.old)) ≤ most_parts }
        ensures answer { result ≡ (respond (over self.old (S.spots sites.old)) request.operation request.number).0 }
        ensures after { over self.new (S.spots sites.new) ≡ (respond (over self.old (S.spots sites.old)) request.operation request.number).1 }
    {
        match Action::try_from(request)? {
            Action::Move(site) => {
                self.site = site;
                Ok(0)
            }
            Action::Turn(angle) => {
                self.angle = angle;
                Ok(0)
            }
            Action::Pick(feeder) => self.pick(feeder),
            Action::Place => self.place(sites),
            Action::Look(site) => Ok(spot::sight(sites.at(site))),
            Action::Discard => self.discard(),
        }
    }

    /// The state of the bench, over what keeps its placements.
    pub fn snapshot<S: Sites>(&self, sites: &S) -> State
        ensures { result ≡ over self.now (S.spots sites.now) }
    {
        State {
            site: self.site,
            angle: self.angle,
            nozzle: self.nozzle,
            counts: self.counts,
            bin: self.bin,
            sites: sites.list(),
        }
    }
}
