//! What is claimed of the translator's answers.

ghost use Rattle.std.specs.Prelude.{ℕ, List};
ghost use Rattle.translation.specs.Answers.{OneAnswer};

/// At most one answer fits.
pub fn one_answer_fits()
    ensures { (bs out : List ℕ) → OneAnswer bs out }
{}
