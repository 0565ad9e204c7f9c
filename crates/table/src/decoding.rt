ghost use Rattle.std.specs.Prelude.{◌≡◌, Ok, Decides};
ghost use Rattle.language.specs.declared.record.Record.{Record as Rec};
ghost use Rattle.language.specs.Bytes.{encode, InRange, Spare};
ghost use Rattle.table.specs.Rows.{Decodes, Reads};

use language::{Handler, Instruction, Record, RecordCause};

// a function, and no `TryFrom`: both types are of other crates. What it promises of the inverse is shown of the rows

/// The record that eight bytes stand for, or the lowest cause that they stand for none.
pub fn decode(bytes: [u8; 8]) -> Result<Record, RecordCause>
    ensures decodes { Decodes bytes result }
    ensures inverse { (x : Rec) → InRange x → encode x ≡ bytes → result ≡ Ok x }
{
    read(bytes)
}

/// One row of the match for each form: its letter, its fields, and 0 where it has none.
fn read(bytes: [u8; 8]) -> Result<Record, RecordCause>
    ensures { Reads bytes result }
{
    match bytes {
        [b'R', _, p, q, ..] if p > 4 || q > 16 - p => Err(RecordCause::Range),
        [b'B', _, 2..=255, ..] | [b'A', _, 6..=255, ..] | [b'F', _, _, 5..=255, ..] => {
            Err(RecordCause::Range)
        }
        [b'R', identifier, parameters, locals, 0, 0, 0, 0] => {
            Ok(Record::Routine {
                identifier,
                parameters,
                locals,
            })
        }
        [b'B', label, 0, 0, 0, 0, 0, 0] => Ok(Record::Block {
            label,
            handler: None,
        }),
        [b'B', label, 1, target, catch, 0, 0, 0] => {
            Ok(Record::Block {
                label,
                handler: Some(Handler {
                    label: target,
                    catch,
                }),
            })
        }
        [b'C', x, 0, 0, a, b, c, d] => {
            Ok(Record::Body(Instruction::Constant {
                x,
                value: i32::from_le_bytes([a, b, c, d]),
            }))
        }
        [b'M', x, y, 0, 0, 0, 0, 0] => Ok(Record::Body(Instruction::Move { x, y })),
        [b'S', x, y, z, 0, 0, 0, 0] => Ok(Record::Body(Instruction::Difference { x, y, z })),
        [b'A', x, operation, y, 0, 0, 0, 0] => {
            Ok(Record::Body(Instruction::Request { x, operation, y }))
        }
        [b'F', x, routine, count, a, b, c, d] if spare(count, [a, b, c, d]) => {
            Ok(Record::Body(Instruction::Call {
                x,
                routine,
                count,
                arguments: [a, b, c, d],
            }))
        }
        [b'G', label, 0, 0, 0, 0, 0, 0] => Ok(Record::Body(Instruction::Goto { label })),
        [b'T', x, 0, 0, 0, 0, 0, 0] => Ok(Record::Body(Instruction::Return { x })),
        [b'I', x, y, then, otherwise, 0, 0, 0] => {
            Ok(Record::Body(Instruction::Branch {
                x,
                y,
                then,
                otherwise,
            }))
        }
        [b'X', x, 0, 0, 0, 0, 0, 0] => Ok(Record::Body(Instruction::Raise { x })),
        [
            b'R' | b'B' | b'C' | b'M' | b'S' | b'A' | b'F' | b'G' | b'T' | b'I' | b'X',
            ..
        ] => { Err(RecordCause::Padding) }
        _ => Err(RecordCause::Letter),
    }
}

/// Whether the places after the first `count` are all 0.
fn spare(count: u8, arguments: [u8; 4]) -> bool
    ensures { Decides result (Spare count arguments) }
{
    arguments
        .iter()
        .skip(usize::from(count))
        .all(|spare| *spare == 0)
}
