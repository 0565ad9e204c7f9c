use language::Progress;

/// What a go came to: where the run is, and how many beats were made.
#[derive(Clone, Copy, PartialEq, Eq, Debug)]
pub struct Gone {
    pub progress: Progress,
    pub beats: u32,
}
