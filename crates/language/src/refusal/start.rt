ghost use Rattle.std.specs.Prelude.{◌≡◌};
ghost use Rattle.language.specs.Refused.{start_number};

use super::StartRefusal;

impl StartRefusal {
    // one for each enum: no generic function reads the value of a case
    /// The number that the refusal is known by outside.
    pub fn number(self) -> i32
        ensures { result ≡ start_number self }
    {
        self as i32
    }
}
