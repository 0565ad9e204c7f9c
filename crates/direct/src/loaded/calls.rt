ghost use Rattle.std.specs.Prelude.{◌≡◌, ℕ, None, Some};
ghost use Rattle.bench.specs.declared.state.State.{State as Standing};
ghost use Rattle.direct.specs.Programs.{records_in};
ghost use Rattle.direct.specs.Stands.{stand_with, start_answer, go_answer};
ghost use Rattle.language.specs.Calls.{start, go};
ghost use Rattle.language.specs.Direct.{DirectCalls};
ghost use Rattle.table.specs.Checked.{records_of};

use super::super::gone::Gone;
use super::super::machine::Machine;
use super::super::program::Program;
use super::super::run::Run;
use super::Loaded;
use bench::Bench;
use language::{GoRefusal, StartRefusal};
use table::Table;

impl Loaded {
    /// A table, made ready to run, with no run yet.
    pub fn new(table: Table) -> Loaded
        ensures { (b : Standing) → stand_with (Some result) b ≡ record { table = Some (records_of table); run = None; bench = b } }
    {
        Loaded {
            program: Program::new(table),
            run: None,
        }
    }

    /// Starts a run of routine 0 with these arguments, in place of the run that there is.
    pub fn start(&mut self, arguments: &[i32]) -> Result<(), StartRefusal>
        ensures { (b : Standing) → DirectCalls (stand_with (Some self.old) b) (start arguments.now) (start_answer result) (stand_with (Some self.new) b) }
    {
        let main = self.program.table.main();
        if arguments.len() != usize::from(main.parameters) {
            return Err(StartRefusal::ArgumentCount);
        }
        self.run = Some(Run {
            progress: Ok(()),
            machine: Machine::begin(main.place as u16 + 1, arguments),
        });
        Ok(())
    }

    /// Makes so many beats, fewer only if the run ends. A run that has ended tells its ending again.
    pub fn go<B: Bench>(&mut self, bench: &mut B, count: i32) -> Result<Gone, GoRefusal>
        ensures { (k : ℕ) × DirectCalls (stand_with (Some self.old) (B.Bench.state bench.old)) (go count) (go_answer result k) (stand_with (Some self.new) (B.Bench.state bench.new)) }
    {
        let program = &self.program;
        let Some(run) = &mut self.run else {
            return Err(GoRefusal::NoRun);
        };
        run.go(program, bench, count)
    }
}
