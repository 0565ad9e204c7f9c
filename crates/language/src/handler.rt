/// Where a block's faults go: the block with this label, once the fault's number is in the catch
/// variable.
#[derive(Clone, Copy, PartialEq, Eq, Debug)]
pub struct Handler {
    pub label: u8,
    pub catch: u8,
}
