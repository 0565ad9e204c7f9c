//! Outcomes as answers.
ghost use Rattle.std.specs.Prelude.{◌≡◌, MatchResult};
ghost use Rattle.script.specs.declared.answer.Answer.TheVariants.{Done, SetUpRefused, ShiftRefused, TableRefused, Number, Fault as Faulted, State as Standing};
ghost use Rattle.table.specs.Faults.{fault_layer, fault_cause, fault_place};

use super::answer::Answer;
use bench::{Fault, SetUpRefusal, ShiftRefusal, State};
use table::TableFault;

/// What succeeds with nothing to say.
impl From<()> for Answer {
    ghost from_gives = { λ _ a. a ≡ Done };

    fn from(_done: ()) -> Answer {
        Answer::Done
    }
}

impl From<i32> for Answer {
    ghost from_gives = { λ n a. a ≡ Number n };

    fn from(number: i32) -> Answer {
        Answer::Number(number)
    }
}

impl From<SetUpRefusal> for Answer {
    ghost from_gives = { λ r a. a ≡ SetUpRefused r };

    fn from(refusal: SetUpRefusal) -> Answer {
        Answer::SetUpRefused(refusal)
    }
}

impl From<ShiftRefusal> for Answer {
    ghost from_gives = { λ r a. a ≡ ShiftRefused r };

    fn from(refusal: ShiftRefusal) -> Answer {
        Answer::ShiftRefused(refusal)
    }
}

impl From<TableFault> for Answer {
    ghost from_gives = { λ f a. a ≡ TableRefused (fault_layer f) (fault_cause f) (fault_place f) };

    fn from(fault: TableFault) -> Answer {
        Answer::TableRefused {
            layer: fault.layer(),
            cause: fault.cause(),
            place: fault.place(),
        }
    }
}

impl From<Fault> for Answer {
    ghost from_gives = { λ f a. a ≡ Faulted f };

    fn from(fault: Fault) -> Answer {
        Answer::Fault(fault)
    }
}

impl From<State> for Answer {
    ghost from_gives = { λ s a. a ≡ Standing s };

    fn from(state: State) -> Answer {
        Answer::State(state)
    }
}

/// An outcome is answered by its value, or by its error.
impl<T: Into<Answer>, E: Into<Answer>> From<Result<T, E>> for Answer {
    ghost from_gives = { λ r a. MatchResult r (λ x. T.converts x a) (λ e. E.converts e a) };

    fn from(outcome: Result<T, E>) -> Answer {
        match outcome {
            Ok(value) => value.into(),
            Err(error) => error.into(),
        }
    }
}
