ghost use Rattle.std.specs.Prelude.{◌≡◌, ◌≤◌, ◌++◌, length, take, drop, IfOk};
ghost use Rattle.bench.specs.SetUps.{SetsUp};
ghost use Rattle.session.specs.Performs.{Performs, GoesOn, states};
ghost use Rattle.session.specs.BothPerforms.{BothPerform};
ghost use Rattle.session.specs.Plays.{BothPlayed, first_answers, second_answers};

use super::event::Event;
use super::exchange::Exchange;
use super::play::play_both;
use super::section::Section;
use bench::{Bench, SetUpRefusal};
use benches::{Inspect, LogBench, SiteBench, TurnedBench};
use script::{Answer, Kind};
use std::alloc::{AllocError, Global};

/// A bench just set up, and the outcome of that.
type SetUp<B> = (B, Result<(), SetUpRefusal>);

impl Section {
    /// Performs the section on two benches of the kinds that it names, and tells what both answered
    /// to each event. Each answers as the rules say, and both answer alike.
    pub fn perform(&self, heap: Global) -> Result<Vec<Exchange>, AllocError>
        ensures first { IfOk result (λ v. Performs self.now (first_answers v.items)) }
        ensures second { IfOk result (λ v. Performs self.now (second_answers v.items)) }
        ensures alike { IfOk result (λ v. first_answers v.items ≡ second_answers v.items) }
    {
        let counts = self.pairing.counts;
        // a match on the kind: the two kinds are two types, and no bench is handed out behind a pointer
        match self.pairing.first {
            Kind::Site => self.perform_beside(heap, SiteBench::set_up(counts)),
            Kind::Log => self.perform_beside(heap, LogBench::set_up(counts)),
        }
    }

    /// Performs the section on a bench that was just set up, and on one of the second kind.
    fn perform_beside<P: Inspect + Drop>(
        &self,
        heap: Global,
        first: SetUp<P>,
    ) -> Result<Vec<Exchange>, AllocError>
        requires { SetsUp self.now.pairing.counts first.1 (P.Bench.state first.0) }
        ensures { IfOk result (λ v. BothPerform self.now v.items) }
    {
        let counts = self.pairing.counts;
        match self.pairing.second {
            Kind::Site => self.perform_on(heap, first, SiteBench::set_up(counts)),
            Kind::Log => self.perform_on(heap, first, LogBench::set_up(counts)),
        }
    }

    /// Performs the section on two benches that were just set up.
    fn perform_on<P: Inspect + Drop, Q: Inspect + Drop>(
        &self,
        heap: Global,
        first: SetUp<P>,
        second: SetUp<Q>,
    ) -> Result<Vec<Exchange>, AllocError>
        requires first { SetsUp self.now.pairing.counts first.1 (P.Bench.state first.0) }
        requires second { SetsUp self.now.pairing.counts second.1 (Q.Bench.state second.0) }
        ensures { IfOk result (λ v. BothPerform self.now v.items) }
    {
        let (first, first_outcome) = first;
        let (second, second_outcome) = second;
        let set_up = Exchange {
            first: first_outcome.into(),
            second: second_outcome.into(),
        };
        let Some(shift) = self.turn else {
            return self.go_on(heap, first, second, vec![in heap; set_up]?);
        };
        let (first, first_outcome) = TurnedBench::new(first, shift);
        let (second, second_outcome) = TurnedBench::new(second, shift);
        let turn = Exchange {
            first: first_outcome.into(),
            second: second_outcome.into(),
        };
        self.go_on(heap, first, second, vec![in heap; set_up, turn]?)
    }

    /// Gives both benches the events of the section, and adds what they answer to what they answered
    /// before; and their states, if the section asks for them.
    fn go_on<P: Inspect + Drop, Q: Inspect + Drop>(
        &self,
        heap: Global,
        mut first: P,
        mut second: Q,
        before: Vec<Exchange>,
    ) -> Result<Vec<Exchange>, AllocError>
        ensures first { IfOk result (λ v. GoesOn self.now (P.Bench.state first) (first_answers before.items) (first_answers v.items)) }
        ensures second { IfOk result (λ v. GoesOn self.now (Q.Bench.state second) (second_answers before.items) (second_answers v.items)) }
    {
        let unanswered = Exchange {
            first: Answer::Done,
            second: Answer::Done,
        };
        // one list, with room from the start for just what is added: nothing is kept twice
        let start = before.len();
        let end = start.checked_add(self.events.len()).ok_or(AllocError)?;
        let mut exchanges = before;
        exchanges.reserve_exact(self.events.len().saturating_add(usize::from(self.state)))?;
        exchanges.resize(end, unanswered)?;
        play_after(&mut first, &mut second, &self.events, &mut exchanges, start);
        with_states(exchanges, self.state, &first, &second)
    }
}

/// Gives events to both benches, and fills the slots behind the first `start` with what they answer.
fn play_after<P: Bench, Q: Bench>(
    first: &mut P,
    second: &mut Q,
    events: &[Event],
    exchanges: &mut [Exchange],
    start: usize,
)
    requires { start ≤ length exchanges.old }
    ensures front { take start exchanges.new ≡ take start exchanges.old }
    ensures played { BothPlayed events.now (drop start exchanges.old) (drop start exchanges.new) (P.Bench.state first.old) (Q.Bench.state second.old) (P.Bench.state first.new) (Q.Bench.state second.new) }
{
    play_both(first, second, events, &mut exchanges[start..]);
}

/// Adds the states of both benches to what was answered before, if they are asked for.
fn with_states<P: Inspect, Q: Inspect>(
    before: Vec<Exchange>,
    asked: bool,
    first: &P,
    second: &Q,
) -> Result<Vec<Exchange>, AllocError>
    ensures { IfOk result (λ v. v.items ≡ before.items ++ states asked (P.Bench.state first.now) (Q.Bench.state second.now)) }
{
    let mut exchanges = before;
    if asked {
        exchanges.push(Exchange {
            first: first.snapshot().into(),
            second: second.snapshot().into(),
        })?;
    }
    Ok(exchanges)
}
