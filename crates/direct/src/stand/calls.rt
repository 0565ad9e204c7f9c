ghost use Rattle.std.specs.Prelude.{◌≡◌, ℕ};
ghost use Rattle.direct.specs.Stands.{stand_of, load_answer, start_answer, go_answer};
ghost use Rattle.language.specs.Calls.{load, start, go, jog, replied, fresh_stand};
ghost use Rattle.language.specs.Direct.{DirectCalls};

use super::super::gone::Gone;
use super::super::loaded::Loaded;
use super::Stand;
use bench::{Bench, Fault, Request};
use language::{GoRefusal, StartRefusal};
use table::{TableFault, check};

impl<B: Bench> Stand<B> {
    /// A fresh stand on a bench: it holds no table and no run.
    pub fn new(bench: B) -> Stand<B>
        ensures { stand_of B.Bench.state result ≡ fresh_stand (B.Bench.state bench) }
    {
        Stand {
            bench,
            loaded: None,
        }
    }

    /// Loads the table that the bytes hold, and drops the run. Bytes that are no well-formed table are
    /// refused.
    pub fn load(&mut self, bytes: &[u8]) -> Result<(), TableFault>
        ensures { DirectCalls (stand_of B.Bench.state self.old) (load bytes.now) (load_answer result) (stand_of B.Bench.state self.new) }
    {
        self.loaded = Some(Loaded::new(check(bytes)?));
        Ok(())
    }

    /// Starts a run of routine 0 with these arguments, in place of the run that there is.
    pub fn start(&mut self, arguments: &[i32]) -> Result<(), StartRefusal>
        ensures { DirectCalls (stand_of B.Bench.state self.old) (start arguments.now) (start_answer result) (stand_of B.Bench.state self.new) }
    {
        let Some(loaded) = &mut self.loaded else {
            return Err(StartRefusal::NoTable);
        };
        loaded.start(arguments)
    }

    /// Makes so many beats, fewer only if the run ends. A run that has ended tells its ending again.
    pub fn go(&mut self, count: i32) -> Result<Gone, GoRefusal>
        ensures { (k : ℕ) × DirectCalls (stand_of B.Bench.state self.old) (go count) (go_answer result k) (stand_of B.Bench.state self.new) }
    {
        let Some(loaded) = &mut self.loaded else {
            return Err(GoRefusal::NoRun);
        };
        loaded.go(&mut self.bench, count)
    }

    /// Passes one request to the bench.
    pub fn jog(&mut self, request: Request) -> Result<i32, Fault>
        ensures { DirectCalls (stand_of B.Bench.state self.old) (jog request.operation request.number) (replied result) (stand_of B.Bench.state self.new) }
    {
        self.bench.request(request)
    }

    /// Hands the bench back.
    pub fn into_bench(self) -> B
        ensures { result ≡ self.bench }
    {
        self.bench
    }
}
