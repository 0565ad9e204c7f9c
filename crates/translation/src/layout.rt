ghost use Rattle.table.specs.Checked.{records_of};
ghost use Rattle.translation.specs.Addressing.{Addressed};

use super::addresses::Addresses;
use table::Table;

mod targets;
mod words;
mod writing;

pub use targets::entry_address;

/// A table, and where the words of its records stand in its translation.
#[derive(Drop)]
pub struct Layout<'a> {
    table: &'a Table,
    addresses: Addresses,
    ghost addressed: { Addressed (records_of table.now) addresses },
}
