ghost use Rattle.std.specs.Prelude.{◌≡◌, suc, ◌<◌, ◌≤◌, [], map, length, take, pos, None, int_le, slice_set};
ghost use Rattle.continuation.specs.Machines.{configuration, tested, Saved, Handed};
ghost use Rattle.continuation.specs.Views.{landing_of};
ghost use Rattle.language.specs.Configurations.{rest_after_of, landing_after_of, content, moved, faulted};
ghost use Rattle.language.specs.Runs.{variable_count, value, with_arguments};

use super::super::cell::{Cell, Landing};
use super::Machine;
use few::{Few, Full};
use variables::Variables;

/// The number of the register that is not one of the variables.
const SPARE: u8 = 16;

impl Machine {
    /// A run that begins at an address with these arguments: every cell is free, and continuation and
    /// handler are the outermost.
    pub fn begin(counter: u16, arguments: &[i32]) -> Machine
        requires { length arguments.now ≤ variable_count }
        ensures { configuration result ≡ record { counter = counter; variables = with_arguments arguments.now; register = pos 0; continuation = None; handler = None; cells = [] } }
    {
        Machine {
            counter,
            variables: Variables::started_with(arguments),
            register: 0,
            continuation: None,
            handler: None,
            cells: Few::new(Cell::EMPTY),
        }
    }

    /// The value of a variable or of register 16.
    pub fn content(&self, x: u8) -> i32
        ensures { result ≡ content (configuration self.now) x }
    {
        if x == SPARE {
            self.register
        } else {
            self.variables.get(x)
        }
    }

    /// Gives a variable a value, and goes on at the next word.
    pub fn assign(&mut self, x: u8, value: i32)
        requires { self.old.counter < 976 }
        ensures { configuration self.new ≡ moved (configuration self.old) (suc self.old.counter) (slice_set self.old.variables.values x value) }
    {
        self.variables.set(x, value);
        self.counter += 1;
    }

    /// Gives a variable or register 16 a fault's number, and goes on at the next word.
    pub fn catch(&mut self, x: u8, number: i32)
        requires { self.old.counter < 976 }
        ensures { configuration self.new ≡ faulted (configuration self.old) x number }
    {
        if x == SPARE {
            self.register = number;
        } else {
            self.variables.set(x, number);
        }
        self.counter += 1;
    }

    /// Fills the next cell with what is to go on after a call, and goes on at the next word; or changes
    /// nothing, where no cell is free.
    pub fn save(&mut self, res: u8, catch: Option<u8>) -> Result<(), Full>
        requires { self.old.counter < 976 }
        ensures { Saved (configuration self.old) res catch result (configuration self.new) }
    {
        let next = Some(self.cells.len() as u8);
        self.cells.push(Cell {
            result: res,
            rest: rest_after(catch, self.counter),
            landing: landing_after(catch, self.counter),
            variables: self.variables,
            continuation: self.continuation,
            handler: self.handler,
        })?;
        self.counter += 1;
        self.continuation = next;
        if catch.is_some() {
            self.handler = next;
        }
        Ok(())
    }

    /// Goes on at an address with the values of the first arguments, and the other variables 0.
    pub fn enter(&mut self, count: u8, address: u16, arguments: [u8; 4])
        requires { count ≤ 4 }
        ensures { configuration self.new ≡ moved (configuration self.old) address (with_arguments (map (value self.old.variables.values) (take count arguments))) }
    {
        let passed = &arguments[..usize::from(count)];
        self.variables = self.variables.passed(passed);
        self.counter = address;
    }

    /// Goes on at the next word if `x` is at most `y`, else at the one after it.
    pub fn test(&mut self, x: u8, y: u8)
        requires { self.old.counter < 976 }
        ensures { configuration self.new ≡ tested (configuration self.old) (int_le (value self.old.variables.values x) (value self.old.variables.values y)) }
    {
        let next = if self.variables.get(x) <= self.variables.get(y) {
            1
        } else {
            2
        };
        self.counter += next;
    }

    /// Hands a value to a cell, for its variable `x`, and goes on at an address: what the cell saved
    /// comes back.
    pub fn hand(&mut self, cell: Cell, x: u8, address: u16, value: i32)
        ensures { Handed (configuration self.old) cell x address value (configuration self.new) }
    {
        self.counter = address;
        self.variables = cell.variables;
        self.variables.set(x, value);
        self.continuation = cell.continuation;
        self.handler = cell.handler;
    }
}

/// The address of the rest, after a save at this address.
fn rest_after(catch: Option<u8>, counter: u16) -> u16
    requires { counter < 976 }
    ensures { result ≡ rest_after_of catch counter }
{
    if catch.is_some() {
        counter + 3
    } else {
        counter + 2
    }
}

/// Where a value lands that is raised after a save at this address.
fn landing_after(catch: Option<u8>, counter: u16) -> Option<Landing>
    requires { counter < 976 }
    ensures { landing_of result ≡ landing_after_of catch counter }
{
    catch.map(|catch| Landing {
        catch,
        address: counter + 2,
    })
}
