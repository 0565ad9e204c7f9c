ghost use Rattle.std.specs.Prelude.{Some};
ghost use Rattle.table.specs.Faults.{fault_text};

use super::TableFault;
use std::fmt;

/// `LAYER CAUSE PLACE`, in decimal.
impl fmt::Display for TableFault {
    ghost output = { λ f. Some (fault_text f) };

    fn fmt<W: fmt::Write>(&self, f: &mut fmt::Formatter<W>) -> fmt::Result {
        write!(f, "{} {} {}", self.layer(), self.cause(), self.place())
    }
}
