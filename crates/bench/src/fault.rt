ghost use Rattle.std.specs.Prelude.{◌≡◌};
ghost use Rattle.bench.specs.Numbers.{fault_number};

/// Why a bench does not do what it is asked.
#[derive(Clone, Copy, PartialEq, Eq, Debug)]
pub enum Fault {
    /// There is no such operation.
    NoOperation = 40,
    /// The number is no site.
    NoSite = 41,
    /// The number is no angle.
    NoAngle = 42,
    /// The number is no feeder.
    NoFeeder = 43,
    /// A pick, and the nozzle holds a part.
    NozzleFull = 44,
    /// A pick, and the feeder has no part left.
    FeederEmpty = 45,
    /// A place or a drop, and the nozzle holds no part.
    NozzleEmpty = 46,
    /// A place, and the site has a part.
    SiteTaken = 47,
}

impl Fault {
    // one for each enum: no generic function reads the value of a case
    /// The number that the fault is known by outside.
    pub fn number(self) -> i32
        ensures { result ≡ fault_number self }
    {
        self as i32
    }
}
