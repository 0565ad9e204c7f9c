use script::Expected;
use std::alloc::AllocError;

/// Why a script is not read on.
#[derive(Drop)]
pub enum Stop {
    /// A line is not what was expected.
    Unread(Expected),
    /// Memory ran out, or an answer was not printed.
    Failed(anyhow::Error),
}

impl From<Expected> for Stop {
    fn from(expected: Expected) -> Stop {
        Stop::Unread(expected)
    }
}

impl From<anyhow::Error> for Stop {
    fn from(error: anyhow::Error) -> Stop {
        Stop::Failed(error)
    }
}

impl From<AllocError> for Stop {
    fn from(error: AllocError) -> Stop {
        Stop::Failed(anyhow::Error::from(error))
    }
}
