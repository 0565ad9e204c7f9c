ghost use Rattle.std.specs.Prelude.{Decides};
ghost use Rattle.language.specs.Rows.{Whole};
ghost use Rattle.table.specs.Records.{Recorded};

use super::decoding::decode;
use super::fault::{Located, RecordFault};
use few::Few;
use language::{Instruction, Record, RecordCause};

/// The most records that a table has.
pub const MOST_RECORDS: usize = 256;

/// Layer 1: the records that the bytes hold, or the first fault.
pub fn check_records(bytes: &[u8]) -> Result<Few<Record, MOST_RECORDS>, RecordFault>
    ensures { Recorded bytes.now result }
{
    if !is_whole(bytes) {
        return Err(Located {
            cause: RecordCause::Length,
            place: 0,
        });
    }
    let (rows, _) = bytes.as_chunks::<8>();
    let mut records = Few::new(Record::Body(Instruction::Return { x: 0 }));
    for (place, row) in rows.iter().enumerate() {
        let made = decode(*row).map_err(|cause| Located { cause, place })?;
        records.push(made).unwrap();
    }
    Ok(records)
}

/// Whether the bytes are 1 to 256 records of eight, with nothing left over.
fn is_whole(bytes: &[u8]) -> bool
    ensures { Decides result (Whole bytes.now) }
{
    !bytes.is_empty() && bytes.len() <= 8 * MOST_RECORDS && bytes.len() % 8 == 0
}
