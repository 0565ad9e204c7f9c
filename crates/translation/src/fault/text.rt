ghost use Rattle.std.specs.Prelude.{Some};
ghost use Rattle.translation.specs.Numbers.{refusal_text};

use super::TranslationFault;
use std::fmt;

// written out once more: what a table is refused for is told by its own numbers, and here one layer is added

/// `LAYER CAUSE PLACE`, in decimal.
impl fmt::Display for TranslationFault {
    ghost output = { λ f. Some (refusal_text f) };

    fn fmt<W: fmt::Write>(&self, f: &mut fmt::Formatter<W>) -> fmt::Result {
        write!(f, "{} {} {}", self.layer(), self.cause(), self.place())
    }
}
