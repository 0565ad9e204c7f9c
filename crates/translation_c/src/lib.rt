//! The translator as a program in C calls it: a thin static library over `translation`, which is a
//! library of Rattle and so exports nothing itself.
#![tactic(auto)]

ghost use Rattle.translation.specs.Answers.{Told};

// one number for both outcomes: C has no `Result`

/// Translates the bytes of a table: how many bytes were written, or −(cause × 1000 + place).
#[unsafe(no_mangle)]
pub extern "C" fn translate(table: &[u8], out: &mut [u8]) -> i32
    ensures { Told table.now out.old out.new result }
{
    translation::translate(table, out)
}
