ghost use Rattle.std.specs.Prelude.{◌≡◌, ◌≤◌, Err};
ghost use Rattle.table.specs.Checked.{records_of};
ghost use Rattle.translation.specs.Answers.{Translates, Answers, Told};
ghost use Rattle.translation.specs.Numbers.{number, refusal_place};

use super::fault::{ShortBuffer, TranslationFault};
use super::layout::Layout;
use table::{Table, check};

/// The most bytes that a translation has: 976 words of eight.
pub const MOST_BYTES: usize = 7808;

/// Translates a checked table into the buffer, and gives how many bytes were written. No byte after
/// them is changed, and none at all where the buffer is too short.
pub fn translate_table(table: &Table, out: &mut [u8]) -> Result<usize, ShortBuffer>
    ensures { Translates (records_of table.now) out.old out.new result }
{
    let layout = Layout::of(table);
    if out.len() < layout.bytes() {
        return Err(ShortBuffer);
    }
    Ok(layout.put(out))
}

/// Checks the bytes of a table, and translates it.
pub fn translate_bytes(bytes: &[u8], out: &mut [u8]) -> Result<usize, TranslationFault>
    ensures { Answers bytes.now out.old out.new result }
{
    let table = check(bytes)?;
    Ok(translate_table(&table, out)?)
}

/// The same for a caller in C, which takes one number: how many bytes were written, or
/// −(cause × 1000 + place). `translation_c` exports it.
pub fn translate(table: &[u8], out: &mut [u8]) -> i32
    ensures { Told table.now out.old out.new result }
{
    match translate_bytes(table, out) {
        Ok(written) => written as i32,
        Err(fault) => refusal_number(fault),
    }
}

/// The number of a refusal.
fn refusal_number(fault: TranslationFault) -> i32
    requires { refusal_place fault ≤ 256 }
    ensures { result ≡ number (Err fault) }
{
    -(i32::from(fault.cause()) * 1000 + fault.place() as i32)
}
