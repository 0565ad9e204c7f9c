ghost use Rattle.std.specs.Prelude.{◌≡◌, ℕ, vec_items, Vec};
ghost use Rattle.std.specs.declared.alloc.Global.{Global};
ghost use Rattle.bench.specs.declared.state.State.{State as Standing};
ghost use Rattle.session.specs.Events.{Does};
ghost use Rattle.session.specs.declared.event.Event.TheVariants.{Load};

use super::event::Event;
use bench::Bench;
use script::Answer;
use table::check;

/// Gives one event to a bench.
pub fn answer<B: Bench>(bench: &mut B, event: &Event) -> Answer
    ensures { Does (B.Bench.state bench.old) event.now result (B.Bench.state bench.new) }
{
    match event {
        Event::Load(bytes) => answer_load(bytes),
        Event::Jog(request) => bench.request(*request).into(),
    }
}

/// What every bench answers to the bytes of a table; none is changed by them.
// apart from `answer`, so that a request does not pay for the memory of a table
fn answer_load(bytes: &[u8]) -> Answer
    ensures { (s : Standing) (v : Vec ℕ Global) → bytes.now ≡ vec_items v → Does s (Load v) result s }
{
    match check(bytes) {
        Ok(_) => Answer::Done,
        Err(fault) => fault.into(),
    }
}
