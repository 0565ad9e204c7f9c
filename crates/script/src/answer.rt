ghost use Rattle.std.specs.Prelude.{◌≡◌, IfOk, MatchResult, Some, string_bytes};
ghost use Rattle.script.specs.Answers.{answer_text, Paired};
ghost use Rattle.script.specs.declared.answer.Answer.{Answer as Answered};
ghost use Rattle.script.specs.declared.answer.Answer.TheVariants as answer;

use super::state::StateWords;
use bench::{Fault, SetUpRefusal, ShiftRefusal, State};
use std::alloc::{AllocError, Global};
use std::fmt;

/// What an event is answered with.
#[derive(Clone, Copy, PartialEq, Eq, Debug)]
pub enum Answer {
    /// It is done, and there is nothing to say.
    Done,
    SetUpRefused(SetUpRefusal),
    ShiftRefused(ShiftRefusal),
    /// A table is refused: by which layer of the check, for which cause, at which place.
    // numbers and no `TableFault`: what could be told of any refusal still can, and is printed
    TableRefused { layer: u8, cause: u8, place: usize },
    Number(i32),
    Fault(Fault),
    State(State),
}

/// The answer as a line of text, with no end of line.
impl fmt::Display for Answer {
    ghost output = { λ a. Some (answer_text a) };

    fn fmt<W: fmt::Write>(&self, f: &mut fmt::Formatter<W>) -> fmt::Result {
        match self {
            Answer::Done => f.write_str("ok"),
            Answer::SetUpRefused(refusal) => write!(f, "refused {}", refusal.number()),
            Answer::ShiftRefused(refusal) => write!(f, "refused {}", refusal.number()),
            Answer::TableRefused {
                layer,
                cause,
                place,
            } => write!(f, "refused {layer} {cause} {place}"),
            Answer::Number(number) => write!(f, "number {number}"),
            Answer::Fault(fault) => write!(f, "fault {}", fault.number()),
            Answer::State(state) => write!(f, "{}", StateWords(state)),
        }
    }
}

/// The line for two answers to one event: their text where it is the same, and else both.
pub fn pair_text(heap: Global, first: &Answer, second: &Answer) -> Result<String, AllocError>
    ensures { IfOk result (λ s. Paired (answer_text first.now) (answer_text second.now) (string_bytes s)) }
{
    let first = first.to_string(heap)?;
    let second = second.to_string(heap)?;
    if first == second {
        return Ok(first);
    }
    format!(in heap; "DIFFER {first} | {second}")
}
