ghost use Rattle.direct.specs.Going.{Went};
ghost use Rattle.direct.specs.Machines.{state_of};
ghost use Rattle.direct.specs.Programs.{records_in};
ghost use Rattle.language.specs.Reachable.{Reachable};

use super::super::gone::Gone;
use super::super::program::Program;
use super::Machine;
use bench::Bench;

impl Machine {
    /// So many beats, fewer only if the run ends.
    pub fn go<B: Bench>(&mut self, program: &Program, bench: &mut B, count: u32) -> Gone
        requires { Reachable (records_in program.now) (state_of self.old) }
        ensures { Went (records_in program.now) count (state_of self.old) (B.Bench.state bench.old) result (state_of self.new) (B.Bench.state bench.new) }
    {
        for made in 0..count {
            if let Err(ending) = self.beat(program, bench) {
                return Gone {
                    progress: Err(ending),
                    beats: made + 1,
                };
            }
        }
        Gone {
            progress: Ok(()),
            beats: count,
        }
    }
}
