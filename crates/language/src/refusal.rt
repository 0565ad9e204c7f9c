mod go;
mod start;

/// Why a run is not started. Its value is the number that it is known by outside.
#[derive(Clone, Copy, PartialEq, Eq, Debug)]
pub enum StartRefusal {
    /// No table is loaded.
    NoTable = 20,
    /// Routine 0 takes another number of arguments.
    ArgumentCount = 21,
}

/// Why a run does not go on. Its value is the number that it is known by outside.
#[derive(Clone, Copy, PartialEq, Eq, Debug)]
pub enum GoRefusal {
    /// No run is started.
    NoRun = 22,
    /// The number of beats is below 0 or above 100,000.
    BeatCount = 23,
}
