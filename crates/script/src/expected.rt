ghost use Rattle.std.specs.Prelude.{◌≡◌, Some};
ghost use Rattle.script.specs.Messages.{message};

use std::fmt;

/// What was expected where a script cannot be read.
#[derive(Clone, Copy, PartialEq, Eq, Debug)]
pub enum Expected {
    /// A word that says what a line is.
    Keyword,
    /// A kind of bench.
    Kind,
    /// A number of 32 bits.
    Number,
    /// The eight counts of a bench.
    Counts,
    /// The bytes of a table.
    Table,
    /// No further word.
    End,
    /// A line that begins a section.
    Bench,
    /// A line that may stand among the events of a section.
    Event,
}

impl Expected {
    /// What was expected, in words.
    pub fn message(self) -> &'static str
        ensures { result.now ≡ message self }
    {
        match self {
            Expected::Keyword => "expected bench, turn, load, jog or state",
            Expected::Kind => "expected a bench kind, site or log",
            Expected::Number => "expected a number of 32 bits",
            Expected::Counts => "expected eight counts, numbers of 32 bits",
            Expected::Table => "expected a table, pairs of hexadecimal digits or -",
            Expected::End => "expected the end of the line",
            Expected::Bench => "expected a bench line",
            Expected::Event => "expected a load, jog, state or bench line",
        }
    }
}

impl fmt::Display for Expected {
    ghost output = { λ e. Some (message e) };

    fn fmt<W: fmt::Write>(&self, f: &mut fmt::Formatter<W>) -> fmt::Result {
        f.write_str(self.message())
    }
}
