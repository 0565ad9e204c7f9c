ghost use Rattle.std.specs.Prelude.{◌≡◌, ◌<◌, ◌≤◌, [], ◌∷◌, length, None, slice_set};
ghost use Rattle.direct.specs.Machines.{state_of, entered, Called, Resumed};
ghost use Rattle.language.specs.Runs.{variable_count, with_arguments, onward};

use super::super::frame::Frame;
use super::super::link::Target;
use super::Machine;
use few::{Few, Full};
use variables::Variables;

impl Machine {
    /// A run of routine 0 that begins at this place with these arguments.
    pub fn begin(at: u16, arguments: &[i32]) -> Machine
        requires { length arguments.now ≤ variable_count }
        ensures { state_of result ≡ record { routine = 0; handler = None; at = at; variables = with_arguments arguments.now; frames = [] } }
    {
        Machine {
            routine: 0,
            handler: None,
            at,
            variables: Variables::started_with(arguments),
            frames: Few::new(Frame::EMPTY),
        }
    }

    /// Gives a variable a value, and goes on one record further.
    pub fn assign(&mut self, x: u8, value: i32)
        requires { self.old.at < 256 }
        ensures { state_of self.new ≡ onward (state_of self.old) (slice_set self.old.variables.values x value) }
    {
        self.variables.set(x, value);
        self.at += 1;
    }

    /// Goes on where a jump leads.
    pub fn enter(&mut self, target: Target)
        ensures { state_of self.new ≡ entered (state_of self.old) target.at target.handler }
    {
        self.at = target.at;
        self.handler = target.handler;
    }

    /// Saves a frame, and goes on in a routine at its first instruction, which has no handler yet; or
    /// changes nothing where no frame is free.
    pub fn call(&mut self, res: u8, routine: u8, at: u16, arguments: &[u8]) -> Result<(), Full>
        requires few { length arguments.now ≤ variable_count }
        requires placed { self.old.at < 256 }
        ensures { Called (state_of self.old) res routine at arguments.now result (state_of self.new) }
    {
        let frame = Frame {
            routine: self.routine,
            handler: self.handler,
            next: self.at + 1,
            variables: self.variables,
            result: res,
        };
        self.frames.push(frame)?;
        self.variables = frame.variables.passed(arguments);
        self.routine = routine;
        self.handler = None;
        self.at = at;
        Ok(())
    }

    /// Goes on where the newest frame was saved, with this result; or changes nothing, where none stands.
    pub fn resume(&mut self, value: i32) -> Option<()>
        ensures { Resumed (state_of self.old) value result (state_of self.new) }
    {
        let frame = self.frames.pop()?;
        self.routine = frame.routine;
        self.handler = frame.handler;
        self.at = frame.next;
        self.variables = frame.variables;
        self.variables.set(frame.result, value);
        Some(())
    }
}
