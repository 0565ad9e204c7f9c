ghost use Rattle.std.specs.Prelude.{◌≡◌, pos};
ghost use Rattle.language.specs.Calls.{progress_number, progress_value};
ghost use Rattle.language.specs.Progress.{run_of};

use super::ending::Ending;

/// Where a run is: under way, or how it ended. A beat or a step that ends the run breaks off with the
/// ending, as an error does.
pub type Progress = Result<(), Ending>;

// by match: a case with a field has no value of its own

/// The number that it is known by outside.
pub fn number(progress: Progress) -> i32
    ensures { result ≡ pos (progress_number (run_of progress)) }
{
    match progress {
        Ok(()) => 0,
        Err(Ending::Returned(_)) => 1,
        Err(Ending::Raised(_)) => 2,
        Err(Ending::Exhausted) => 3,
    }
}

/// The value that was returned or raised; 0 where there is none.
pub fn value(progress: Progress) -> i32
    ensures { result ≡ progress_value (run_of progress) }
{
    match progress {
        Err(Ending::Returned(value) | Ending::Raised(value)) => value,
        Ok(()) | Err(Ending::Exhausted) => 0,
    }
}
