ghost use Rattle.std.specs.Prelude.{◌≡◌, List, Some};
ghost use Rattle.bench.specs.declared.state.State.{State as Standing};
ghost use Rattle.direct.specs.Machines.{state_of};
ghost use Rattle.direct.specs.Programs.{records_in, BranchesAt};
ghost use Rattle.language.specs.Beats.{Beat};
ghost use Rattle.language.specs.Progress.{progressed};
ghost use Rattle.language.specs.Reachable.{Reachable};
ghost use Rattle.language.specs.Runs.{running};
ghost use Rattle.language.specs.declared.instruction.Instruction.TheVariants.{Request as Asks, Call as Calls, Return as Returns};
ghost use Rattle.language.specs.declared.record.Record.{Record as Recorded};
ghost use Rattle.language.specs.declared.record.Record.TheVariants.{Body};
ghost use Rattle.std.specs.List.{slice_get};

use super::super::program::Program;
use super::Machine;
use bench::{Bench, Request};
use language::{Ending, Instruction, Progress};

impl Machine {
    /// One beat: carries out the instruction that the run stands at.
    pub fn beat<B: Bench>(&mut self, program: &Program, bench: &mut B) -> Progress
        requires { Reachable (records_in program.now) (state_of self.old) }
        ensures { Beat (records_in program.now) (state_of self.old) (B.Bench.state bench.old) (progressed result (state_of self.new)) (B.Bench.state bench.new) }
    {
        match program.instruction(self.at) {
            Instruction::Constant { x, value } => self.assign(x, value),
            Instruction::Move { x, y } => {
                let value = self.variables.get(y);
                self.assign(x, value)
            }
            Instruction::Difference { x, y, z } => {
                let value = self.variables.difference(y, z);
                self.assign(x, value)
            }
            Instruction::Request { x, operation, y } => {
                self.request(program, bench, x, operation, y)?
            }
            Instruction::Call {
                x,
                routine,
                count,
                arguments,
            } => self.call_routine(program, x, routine, count, arguments)?,
            Instruction::Goto { .. } => self.enter(program.link(self.at).goes),
            Instruction::Return { x } => self.give_back(x)?,
            Instruction::Branch { x, y, .. } => self.branch(program, x, y),
            Instruction::Raise { x } => {
                let value = self.variables.get(x);
                self.raise(program, value)?
            }
        }
        Ok(())
    }

    /// Asks the bench. Its number goes to `x`; a fault's number is raised.
    fn request<B: Bench>(
        &mut self,
        program: &Program,
        bench: &mut B,
        x: u8,
        operation: u8,
        y: u8,
    ) -> Progress
        requires reached { Reachable (records_in program.now) (state_of self.old) }
        requires here { slice_get (records_in program.now) self.old.at ≡ Some (Body (Asks x operation y)) }
        ensures { Beat (records_in program.now) (state_of self.old) (B.Bench.state bench.old) (progressed result (state_of self.new)) (B.Bench.state bench.new) }
    {
        let number = self.variables.get(y);
        match bench.request(Request {
            operation: i32::from(operation),
            number,
        }) {
            Ok(answer) => {
                self.assign(x, answer);
                Ok(())
            }
            Err(fault) => self.raise(program, fault.number()),
        }
    }

    /// Calls a routine, whose result is to go to `x`; or ends the run, where no frame is free.
    fn call_routine(
        &mut self,
        program: &Program,
        x: u8,
        routine: u8,
        count: u8,
        arguments: [u8; 4],
    ) -> Progress
        requires reached { Reachable (records_in program.now) (state_of self.old) }
        requires here { slice_get (records_in program.now) self.old.at ≡ Some (Body (Calls x routine count arguments)) }
        ensures { (b : Standing) → Beat (records_in program.now) (state_of self.old) b (progressed result (state_of self.new)) b }
    {
        let at = program.link(self.at).goes.at;
        let passed = &arguments[..usize::from(count)];
        self.call(x, routine, at, passed)
            .map_err(|_| Ending::Exhausted)
    }

    /// Gives `x` back to the newest frame; or ends the run, where there is none.
    fn give_back(&mut self, x: u8) -> Progress
        ensures { (t : List Recorded) (b : Standing) → slice_get t self.old.at ≡ Some (Body (Returns x)) → Beat t (state_of self.old) b (progressed result (state_of self.new)) b }
    {
        let value = self.variables.get(x);
        self.resume(value).ok_or(Ending::Returned(value))
    }

    /// Goes to one block if `x` is at most `y`, else to the other.
    fn branch(&mut self, program: &Program, x: u8, y: u8)
        requires reached { Reachable (records_in program.now) (state_of self.old) }
        requires here { BranchesAt (records_in program.now) self.old.at x y }
        ensures { (b : Standing) → Beat (records_in program.now) (state_of self.old) b (running (state_of self.new)) b }
    {
        let link = program.link(self.at);
        if self.variables.get(x) <= self.variables.get(y) {
            self.enter(link.goes);
        } else {
            self.enter(link.otherwise);
        }
    }
}
