ghost use Rattle.std.specs.Prelude.{◌≡◌};
ghost use Rattle.continuation.specs.Decoding.{Decodes, Reads};

use language::{Operation, Word};

// a function, and no `TryFrom`: both types are of other crates

/// The word that eight bytes stand for, if they stand for one.
pub fn decode(bytes: [u8; 8]) -> Option<Word>
    ensures { Decodes bytes result }
{
    let [kind, a, b, c, d, e, f, g] = bytes;
    let opens = kind <= b'Z';
    let capital = if opens { kind } else { kind - 32 };
    let operation = read([capital, a, b, c, d, e, f, g])?;
    Some(Word { opens, operation })
}

/// One row of the match for each operation: its capital letter, its fields, and 0 where it has none.
fn read(bytes: [u8; 8]) -> Option<Operation>
    ensures { Reads bytes result }
{
    match bytes {
        [b'C', x, 0, 0, a, b, c, d] => Some(Operation::Set {
            x,
            value: i32::from_le_bytes([a, b, c, d]),
        }),
        [b'M', x, y, 0, 0, 0, 0, 0] => Some(Operation::Assign { x, y }),
        [b'S', x, y, z, 0, 0, 0, 0] => Some(Operation::Subtract { x, y, z }),
        [b'A', x, operation, y, catch, 0, 0, 0] => {
            Some(Operation::Ask {
                x,
                operation,
                y,
                catch,
            })
        }
        [b'L', x, 0, 0, 0, 0, 0, 0] => Some(Operation::Save { x, catch: None }),
        [b'L', x, 1, catch, 0, 0, 0, 0] => Some(Operation::Save {
            x,
            catch: Some(catch),
        }),
        [b'F', count, low, high, a, b, c, d] => {
            Some(Operation::Enter {
                count,
                address: u16::from_le_bytes([low, high]),
                arguments: [a, b, c, d],
            })
        }
        [b'J', low, high, 0, 0, 0, 0, 0] => Some(Operation::Jump {
            address: u16::from_le_bytes([low, high]),
        }),
        [b'T', x, 0, 0, 0, 0, 0, 0] => Some(Operation::Resume { x }),
        [b'I', x, y, 0, 0, 0, 0, 0] => Some(Operation::Test { x, y }),
        [b'H', x, 0, 0, 0, 0, 0, 0] => Some(Operation::Throw { x }),
        _ => None,
    }
}
