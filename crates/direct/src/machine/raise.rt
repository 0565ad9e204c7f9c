ghost use Rattle.std.specs.Prelude.{◌≡◌, IfErr};
ghost use Rattle.direct.specs.Machines.{state_of, frameless};
ghost use Rattle.direct.specs.Programs.{records_in};
ghost use Rattle.language.specs.Beats.{Raises};
ghost use Rattle.language.specs.Progress.{progressed};
ghost use Rattle.language.specs.Reachable.{Reachable};

use super::super::frames::catch;
use super::super::program::Program;
use super::Machine;
use language::{Ending, Progress};

impl Machine {
    /// Raises a value. The handler of the block takes it; where there is none, that of the newest frame
    /// whose block has one, with what the frame saved. Where there is none either, the run ends.
    pub fn raise(&mut self, program: &Program, value: i32) -> Progress
        requires { Reachable (records_in program.now) (state_of self.old) }
        ensures raises { Raises (records_in program.now) (state_of self.old) value (progressed result (state_of self.new)) }
        ensures left { IfErr result (λ _. state_of self.new ≡ frameless (state_of self.old)) }
    {
        if let Some(handler) = self.handler {
            self.variables.set(handler.catch, value);
            self.enter(program.link(self.at).handler);
            return Ok(());
        }
        let (frame, handler) = catch(&mut self.frames).ok_or(Ending::Raised(value))?;
        self.routine = frame.routine;
        self.variables = frame.variables;
        self.variables.set(handler.catch, value);
        self.enter(program.link(frame.next - 1).handler);
        Ok(())
    }
}
