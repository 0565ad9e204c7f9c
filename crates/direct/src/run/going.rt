ghost use Rattle.std.specs.Prelude.{ℕ, Some};
ghost use Rattle.direct.specs.Keeping.{run_at};
ghost use Rattle.direct.specs.Programs.{records_in};
ghost use Rattle.direct.specs.Stands.{go_answer};
ghost use Rattle.language.specs.Calls.{go};
ghost use Rattle.language.specs.Direct.{DirectCalls};
ghost use Rattle.language.specs.Reachable.{ReachableRun};

use super::super::gone::Gone;
use super::super::program::Program;
use super::Run;
use bench::Bench;
use language::{GoRefusal, beats_asked};

impl Run {
    /// Makes so many beats, fewer only if the run ends. A run that has ended tells its ending again.
    pub fn go<B: Bench>(
        &mut self,
        program: &Program,
        bench: &mut B,
        count: i32,
    ) -> Result<Gone, GoRefusal>
        requires { ReachableRun (records_in program.now) (run_at self.old) }
        ensures kept { ReachableRun (records_in program.now) (run_at self.new) }
        ensures calls { (k : ℕ) × DirectCalls (record { table = Some (records_in program.now); run = Some (run_at self.old); bench = B.Bench.state bench.old }) (go count) (go_answer result k) (record { table = Some (records_in program.now); run = Some (run_at self.new); bench = B.Bench.state bench.new }) }
    {
        let most = beats_asked(count).ok_or(GoRefusal::BeatCount)?;
        if let Err(ending) = self.progress {
            return Ok(Gone {
                progress: Err(ending),
                beats: 0,
            });
        }
        let gone = self.machine.go(program, bench, most);
        self.progress = gone.progress;
        Ok(gone)
    }
}
