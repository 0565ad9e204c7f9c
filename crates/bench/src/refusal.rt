ghost use Rattle.std.specs.Prelude.{◌≡◌};
ghost use Rattle.bench.specs.Numbers.{set_up_number, shift_number};

/// Why a bench is not set up with the counts given.
#[derive(Clone, Copy, PartialEq, Eq, Debug)]
pub enum SetUpRefusal {
    /// A count is below 0 or above 999.
    CountOutOfRange = 48,
}

impl SetUpRefusal {
    // one for each enum: no generic function reads the value of a case
    /// The number that the refusal is known by outside.
    pub fn number(self) -> i32
        ensures { result ≡ set_up_number self }
    {
        self as i32
    }
}

/// Why a bench is not turned by the shift given.
#[derive(Clone, Copy, PartialEq, Eq, Debug)]
pub enum ShiftRefusal {
    /// The shift is below 0, or a full turn or more.
    ShiftOutOfRange = 49,
}

impl ShiftRefusal {
    // one for each enum: no generic function reads the value of a case
    /// The number that the refusal is known by outside.
    pub fn number(self) -> i32
        ensures { result ≡ shift_number self }
    {
        self as i32
    }
}
