use language::Progress;

/// What beats came to: where the run is, how many beats were made, and in how many steps.
// beside what a go of the direct stand comes to: only this stand makes steps. Its go is not written yet
#[derive(Clone, Copy, PartialEq, Eq, Debug)]
pub struct Made {
    pub progress: Progress,
    pub beats: u32,
    pub steps: u32,
}
