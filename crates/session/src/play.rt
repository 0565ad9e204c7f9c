ghost use Rattle.session.specs.Plays.{BothPlayed};

use super::answering::answer;
use super::event::Event;
use super::exchange::Exchange;
use bench::Bench;

// two benches and no pair of them: they are of two types, and each is lent on its own

/// Gives each event to both benches in turn, and fills a slot with what they answered: as many events
/// as there are slots. Each bench answers and ends as the rules say. Benches that start equal, of one
/// type or of two, answer alike to each event and are equal after each.
pub fn play_both<P: Bench, Q: Bench>(
    first: &mut P,
    second: &mut Q,
    events: &[Event],
    slots: &mut [Exchange],
)
    ensures { BothPlayed events.now slots.old slots.new (P.Bench.state first.old) (Q.Bench.state second.old) (P.Bench.state first.new) (Q.Bench.state second.new) }
{
    let given = &events[..events.len().min(slots.len())];
    // by index: of slots written through `iter_mut().zip(..)` the check knows nothing yet
    for (i, event) in given.iter().enumerate() {
        slots[i] = Exchange {
            first: answer(first, event),
            second: answer(second, event),
        };
    }
}
