ghost use Rattle.direct.specs.Links.{Linked};
ghost use Rattle.few.specs.Held.{held};
ghost use Rattle.table.specs.Checked.{records_of};

use super::link::Link;
use few::Few;
use table::{MOST_RECORDS, Table};

mod reading;

/// A table that is ready to run: with the links of its records.
// the links lie beside the records: those have no room for them, and a list of both would be a second table
#[derive(Drop)]
pub struct Program {
    pub table: Table,
    links: Few<Link, MOST_RECORDS>,
    ghost linked: { ∥ Linked (records_of table) (held links) ∥₁ },
}
