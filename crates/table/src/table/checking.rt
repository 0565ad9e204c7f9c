ghost use Rattle.table.specs.Checked.{Checked, Exactly};

use super::super::blocks::check_blocks;
use super::super::fault::TableFault;
use super::super::names::check_names;
use super::super::records::check_records;
use super::Table;

/// The table that the bytes hold, if it is well formed, and else the one refusal that fits.
pub fn check(bytes: &[u8]) -> Result<Table, TableFault>
    ensures checked { Checked bytes.now result }
    ensures exactly { Exactly bytes.now result }
{
    let records = check_records(bytes)?;
    let all = records.as_slice();
    check_blocks(all)?;
    let index = check_names(all)?;
    Ok(Table { records, index })
}
