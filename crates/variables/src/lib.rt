//! The sixteen variables of a routine, as both kinds of stand keep them.
#![tactic(auto)]

ghost use Rattle.std.specs.Prelude.{◌≡◌, ◌≤◌, map, length, slice_set};
ghost use Rattle.language.specs.Runs.{variable_count, value, difference, with_arguments};

use std::array;

/// The sixteen variables of a routine.
#[derive(Clone, Copy, PartialEq, Eq, Debug)]
pub struct Variables {
    values: [i32; 16],
    ghost long: { length values ≡ variable_count },
}

impl Variables {
    /// All 0.
    pub const ZERO: Variables = Variables { values: [0; 16] };

    // the bound is asked of a slice: who starts or calls a routine knows how many arguments it takes

    /// Those of a routine that is started with these arguments: they come first, the others are 0.
    pub fn started_with(arguments: &[i32]) -> Variables
        requires { length arguments.now ≤ variable_count }
        ensures { result.values ≡ with_arguments arguments.now }
    {
        let mut values = [0; 16];
        values[..arguments.len()].copy_from_slice(arguments);
        Variables { values }
    }

    /// Those of a routine that is called with the values of these variables.
    pub fn passed(&self, arguments: &[u8]) -> Variables
        requires { length arguments.now ≤ variable_count }
        ensures { result.values ≡ with_arguments (map (value self.now.values) arguments.now) }
    {
        Variables {
            values: array::from_fn(|place| self.passed_at(arguments, place)),
        }
    }

    /// What is passed at a place: the value of the argument there; 0 where there is none.
    fn passed_at(&self, arguments: &[u8], place: usize) -> i32
        ensures { result ≡ value (map (value self.now.values) arguments.now) place }
    {
        arguments.get(place).map_or(0, |x| self.get(*x))
    }

    /// The value of a variable; 0 where there is none of that number.
    pub fn get(&self, x: u8) -> i32
        ensures { result ≡ value self.now.values x }
    {
        self.values.get(usize::from(x)).copied().unwrap_or(0)
    }

    /// The difference of two variables, cut to 32 bits.
    pub fn difference(&self, y: u8, z: u8) -> i32
        ensures { result ≡ difference (value self.now.values y) (value self.now.values z) }
    {
        self.get(y).wrapping_sub(self.get(z))
    }

    /// Gives a variable a value; nothing changes where there is none of that number.
    pub fn set(&mut self, x: u8, value: i32)
        ensures { self.new.values ≡ slice_set self.old.values x value }
    {
        let place = usize::from(x);
        if place < self.values.len() {
            self.values[place] = value;
        }
    }
}
