ghost use Rattle.language.specs.WellFormed.{WellFormed};
ghost use Rattle.few.specs.Held.{held};
ghost use Rattle.table.specs.Indexes.{Indexes};

use super::index::Index;
use super::records::MOST_RECORDS;
use few::Few;
use language::Record;

mod checking;
mod reading;

pub use checking::check;

/// A table that was checked: its records, which are well formed, and the entries of its headings.
#[derive(Drop)]
pub struct Table {
    records: Few<Record, MOST_RECORDS>,
    index: Index,
    ghost formed: { ∥ WellFormed (held records) ∥₁ },
    ghost indexed: { Indexes index (held records) },
}
