ghost use Rattle.direct.specs.Keeping.{Keeps};

use super::program::Program;
use super::run::Run;

mod calls;

/// A table that is loaded, and the run of it that is started, in place of any before.
#[derive(Drop)]
pub struct Loaded {
    program: Program,
    run: Option<Run>,
    ghost kept: { ∥ Keeps program run ∥₁ },
}
