use super::blocks::{MOST_BLOCKS, MOST_ROUTINES};
use super::entries::{BlockEntry, RoutineEntry};
use few::Few;

mod flaws;
mod lookups;
mod making;

/// The entries of a table's headings, in their order.
#[derive(Drop)]
pub struct Index {
    routines: Few<RoutineEntry, MOST_ROUTINES>,
    blocks: Few<BlockEntry, MOST_BLOCKS>,
}
