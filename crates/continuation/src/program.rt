ghost use Rattle.std.specs.Prelude.{◌≡◌, length, take};
ghost use Rattle.language.specs.Code.{code as code_of};
ghost use Rattle.table.specs.Checked.{records_of};
ghost use Rattle.translation.specs.Addressing.{EntryAddress};

use table::Table;
use translation::MOST_BYTES;

mod reading;

/// A table that is ready to run: with the bytes of its translation, and the address at which a run
/// starts.
#[derive(Drop)]
pub struct Program {
    pub table: Table,
    code: [u8; MOST_BYTES],
    entry: u16,
    ghost long: { length code ≡ 7808 },
    ghost coded: { take (length (code_of (records_of table))) code ≡ code_of (records_of table) },
    ghost enters: { ∥ EntryAddress (records_of table) entry ∥₁ },
}
