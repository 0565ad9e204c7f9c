ghost use Rattle.std.specs.Prelude.{◌≡◌};
ghost use Rattle.bench.specs.declared.state.State.{State as Standing};
ghost use Rattle.continuation.specs.Machines.{configuration};
ghost use Rattle.continuation.specs.Programs.{records_in};
ghost use Rattle.language.specs.Code.{code};
ghost use Rattle.language.specs.CodeWords.{WordAt};
ghost use Rattle.language.specs.Continuation.{CodeStep};
ghost use Rattle.language.specs.Following.{Going};
ghost use Rattle.language.specs.Progress.{progressed};
ghost use Rattle.language.specs.Runs.{running};
ghost use Rattle.language.specs.Steps.{Fetches};
ghost use Rattle.language.specs.declared.operation.Operation.TheVariants.{Ask as Asks, Save as Saves, Resume as Resumes, Test as Tests, Throw as Throws};

use super::super::cells::release;
use super::super::program::Program;
use super::Machine;
use bench::{Bench, Request};
use language::{Ending, Operation, Progress, Word};

impl Machine {
    // alike to a beat from the table in part, and no shared code: that the two agree is what is proved of them

    /// One step: does what the word says at which the run stands.
    pub fn step<B: Bench>(&mut self, program: &Program, word: Word, bench: &mut B) -> Progress
        requires here { WordAt (code (records_in program.now)) self.old.counter word }
        requires going { ∥ Going (records_in program.now) (running (configuration self.old)) (B.Bench.state bench.old) ∥₁ }
        ensures { CodeStep (records_in program.now) (configuration self.old) (B.Bench.state bench.old) (progressed result (configuration self.new)) (B.Bench.state bench.new) }
    {
        match word.operation {
            Operation::Set { x, value } => self.assign(x, value),
            Operation::Assign { x, y } => {
                let value = self.variables.get(y);
                self.assign(x, value)
            }
            Operation::Subtract { x, y, z } => {
                let value = self.variables.difference(y, z);
                self.assign(x, value)
            }
            Operation::Ask {
                x,
                operation,
                y,
                catch,
            } => self.ask(program, bench, x, operation, y, catch),
            Operation::Save { x, catch } => { self.save(x, catch).map_err(|_| Ending::Exhausted)? }
            Operation::Enter {
                count,
                address,
                arguments,
            } => self.enter(count, address, arguments),
            Operation::Jump { address } => self.counter = address,
            Operation::Resume { x } => self.resume(program, x)?,
            Operation::Test { x, y } => self.test(x, y),
            Operation::Throw { x } => self.throw(program, x)?,
        }
        Ok(())
    }

    /// Asks the bench. Its number goes to `x`, and the next word is passed over; a fault's number goes to
    /// `catch`, and the next word runs.
    fn ask<B: Bench>(
        &mut self,
        program: &Program,
        bench: &mut B,
        x: u8,
        operation: u8,
        y: u8,
        catch: u8,
    )
        requires here { Fetches (WordAt (code (records_in program.now))) (configuration self.old) (Asks x operation y catch) }
        requires going { ∥ Going (records_in program.now) (running (configuration self.old)) (B.Bench.state bench.old) ∥₁ }
        ensures { CodeStep (records_in program.now) (configuration self.old) (B.Bench.state bench.old) (running (configuration self.new)) (B.Bench.state bench.new) }
    {
        let number = self.variables.get(y);
        match bench.request(Request {
            operation: i32::from(operation),
            number,
        }) {
            Ok(answer) => {
                self.variables.set(x, answer);
                self.counter += 2;
            }
            Err(fault) => self.catch(catch, fault.number()),
        }
    }

    /// Hands `x` to the continuation; at the outermost the run ends.
    fn resume(&mut self, program: &Program, x: u8) -> Progress
        requires here { Fetches (WordAt (code (records_in program.now))) (configuration self.old) (Resumes x) }
        requires going { ∥ ((b : Standing) × Going (records_in program.now) (running (configuration self.old)) b) ∥₁ }
        ensures { (b : Standing) → CodeStep (records_in program.now) (configuration self.old) b (progressed result (configuration self.new)) b }
    {
        let value = self.variables.get(x);
        let at = self.continuation.ok_or(Ending::Returned(value))?;
        let cell = release(&mut self.cells, at);
        self.hand(cell, cell.result, cell.rest, value);
        Ok(())
    }

    /// Hands `x` to the handler; at the outermost the run ends.
    fn throw(&mut self, program: &Program, x: u8) -> Progress
        requires here { Fetches (WordAt (code (records_in program.now))) (configuration self.old) (Throws x) }
        requires going { ∥ ((b : Standing) × Going (records_in program.now) (running (configuration self.old)) b) ∥₁ }
        ensures { (b : Standing) → CodeStep (records_in program.now) (configuration self.old) b (progressed result (configuration self.new)) b }
    {
        let value = self.content(x);
        let at = self.handler.ok_or(Ending::Raised(value))?;
        let cell = release(&mut self.cells, at);
        let landing = cell.landing.unwrap();
        self.hand(cell, landing.catch, landing.address, value);
        Ok(())
    }
}
