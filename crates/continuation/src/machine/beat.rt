ghost use Rattle.std.specs.Prelude.{◌≤◌};
ghost use Rattle.continuation.specs.Beating.{Midway};
ghost use Rattle.continuation.specs.Machines.{configuration};
ghost use Rattle.continuation.specs.Programs.{records_in};
ghost use Rattle.language.specs.Code.{code};
ghost use Rattle.language.specs.CodeWords.{WordAt};
ghost use Rattle.language.specs.Continuation.{CodeBeat};
ghost use Rattle.language.specs.Following.{Follows};
ghost use Rattle.language.specs.Progress.{progressed};
ghost use Rattle.language.specs.Steps.{Rest};

use super::super::program::Program;
use super::Machine;
use bench::Bench;
use language::Progress;

/// The most steps of a beat.
const MOST_STEPS: u32 = 18;

impl Machine {
    // a pair and no `Made`: it is one beat, so none are counted

    /// One beat: the word that opens it, and then the rest. Tells where the run is, and how many steps were
    /// made.
    pub fn beat<B: Bench>(&mut self, program: &Program, bench: &mut B) -> (Progress, u32)
        requires { ∥ Follows (records_in program.now) (configuration self.old) ∥₁ }
        ensures beat { CodeBeat (records_in program.now) (configuration self.old) (B.Bench.state bench.old) result.1 (progressed result.0 (configuration self.new)) (B.Bench.state bench.new) }
        ensures few { result.1 ≤ 18 }
    {
        let word = program.word(self.counter);
        let opened = self.step(program, word, bench);
        let (progress, further) = self.settle(program, bench, opened);
        (progress, further + 1)
    }

    /// The rest of a beat: words up to one that opens the next beat, or to an ending.
    fn settle<B: Bench>(
        &mut self,
        program: &Program,
        bench: &mut B,
        opened: Progress,
    ) -> (Progress, u32)
        requires { ∥ Midway (records_in program.now) 1 (progressed opened (configuration self.old)) (B.Bench.state bench.old) ∥₁ }
        ensures rest { Rest (WordAt (code (records_in program.now))) (progressed opened (configuration self.old)) (B.Bench.state bench.old) result.1 (progressed result.0 (configuration self.new)) (B.Bench.state bench.new) }
        ensures few { result.1 ≤ 17 }
    {
        let mut progress = opened;
        for made in 0..MOST_STEPS {
            if let Err(ending) = progress {
                return (Err(ending), made);
            }
            let word = program.word(self.counter);
            if word.opens {
                return (Ok(()), made);
            }
            progress = self.step(program, word, bench);
        }
        // the loop ends before: no beat has more steps
        unreachable()
    }
}
