use super::pairing::Pairing;
use bench::Request;

/// What a line of a script asks for.
#[derive(Clone, Copy, PartialEq, Eq, Debug)]
pub enum Line {
    /// Two benches: a section begins.
    Bench(Pairing),
    /// Both benches turned by a shift.
    Turn(i32),
    /// A table, whose bytes `Line::table` reads.
    Load,
    /// One request.
    Jog(Request),
    /// The state of the benches.
    State,
}
