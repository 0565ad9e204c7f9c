ghost use Rattle.std.specs.Prelude.{◌≡◌};
ghost use Rattle.bench.specs.SetUps.{SetsUp};
ghost use Rattle.benches.specs.Heads.{over, over_valid};

use super::super::head::Head;
use super::super::inspect::Inspect;
use super::super::sites::Sites;
use super::BoardBench;
use bench::{Bench, Fault, Request, SetUpRefusal, State};

impl<S: Sites> BoardBench<S> {
    /// A new bench with these counts. A count out of range is refused; the bench made then has no
    /// parts.
    pub fn set_up(counts: [i32; 8]) -> (BoardBench<S>, Result<(), SetUpRefusal>)
        ensures { SetsUp counts result.1 (over result.0.head (S.spots result.0.sites)) }
    {
        let (head, answer) = Head::set_up(counts);
        let sites = S::new();
        (BoardBench { head, sites }, answer)
    }
}

impl<S: Sites> Bench for BoardBench<S> {
    ghost state = { λ b. over b.head (S.spots b.sites) };

    ghost valid = { λ b. over_valid b.head (S.spots b.sites) (S.all b.sites) b.few };

    fn request(&mut self, request: Request) -> Result<i32, Fault> {
        self.head.serve(&mut self.sites, request)
    }
}

impl<S: Sites> Inspect for BoardBench<S> {
    fn snapshot(&self) -> State {
        self.head.snapshot(&self.sites)
    }
}
