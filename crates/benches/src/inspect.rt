ghost use Rattle.std.specs.Prelude.{◌≡◌};

use bench::{Bench, State};

/// A bench whose state can be read out, for a report.
pub trait Inspect: Bench {
    /// The state that the bench stands for.
    fn snapshot(&self) -> State
        ensures { result ≡ Self.Bench.state self.now };
}
