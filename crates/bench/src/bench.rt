ghost use Rattle.std.specs.Prelude.{◌≡◌};
ghost use Rattle.bench.specs.Respond.{respond};
ghost use Rattle.bench.specs.States.{Valid};
ghost use Rattle.bench.specs.declared.state.State.{State as Standing};

use super::fault::Fault;
use super::request::Request;

/// A bench: whatever answers requests by the rules. A type keeps the rules exactly when it
/// implements this trait.
pub trait Bench {
    // the state that the bench stands for
    ghost state: { Self → Standing };

    /// One request. The answer and the state left are those of the rules, faults included.
    fn request(&mut self, request: Request) -> Result<i32, Fault>
        ensures answer { result ≡ (respond (state self.old) request.operation request.number).0 }
        ensures after { state self.new ≡ (respond (state self.old) request.operation request.number).1 };

    ghost valid: { (b : Self) → Valid (state b) };
}
