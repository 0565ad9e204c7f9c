ghost use Rattle.std.specs.Prelude.{◌≡◌, ◌+◌, ◌/◌, ◌%◌, ◌∷◌, if◌then◌else◌};
ghost use Rattle.language.specs.Code.{letter as letter_of, word_bytes};

use language::{Operation, Word};

// a function, and no `From`: both types are of other crates

/// The eight bytes of a word.
pub fn encode(word: Word) -> [u8; 8]
    ensures { result ≡ word_bytes word }
{
    let kind = letter(word);
    match word.operation {
        Operation::Set { x, value } => {
            let [a, b, c, d] = value.to_le_bytes();
            [kind, x, 0, 0, a, b, c, d]
        }
        Operation::Assign { x, y } | Operation::Test { x, y } => [kind, x, y, 0, 0, 0, 0, 0],
        Operation::Subtract { x, y, z } => [kind, x, y, z, 0, 0, 0, 0],
        Operation::Ask {
            x,
            operation,
            y,
            catch,
        } => [kind, x, operation, y, catch, 0, 0, 0],
        Operation::Save { x, catch: None } => [kind, x, 0, 0, 0, 0, 0, 0],
        Operation::Save {
            x,
            catch: Some(catch),
        } => [kind, x, 1, catch, 0, 0, 0, 0],
        Operation::Enter {
            count,
            address,
            arguments,
        } => { enter_bytes(kind, count, address, arguments) }
        Operation::Jump { address } => {
            let [low, high] = address.to_le_bytes();
            [kind, low, high, 0, 0, 0, 0, 0]
        }
        Operation::Resume { x } | Operation::Throw { x } => [kind, x, 0, 0, 0, 0, 0, 0],
    }
}

/// A word that enters a routine: its letter, the count, the address and the arguments.
fn enter_bytes(kind: u8, count: u8, address: u16, arguments: [u8; 4]) -> [u8; 8]
    ensures { result ≡ kind ∷ count ∷ address % 256 ∷ address / 256 ∷ arguments }
{
    let [low, high] = address.to_le_bytes();
    let [a, b, c, d] = arguments;
    [kind, count, low, high, a, b, c, d]
}

/// The letter of a word.
fn letter(word: Word) -> u8
    ensures { result ≡ (if word.opens then letter_of word.operation else letter_of word.operation + 32) }
{
    if word.opens {
        capital(word.operation)
    } else {
        capital(word.operation) + 32
    }
}

// by match: a case with fields has no value of its own

/// The capital letter of an operation.
fn capital(operation: Operation) -> u8
    ensures { result ≡ letter_of operation }
{
    match operation {
        Operation::Set { .. } => b'C',
        Operation::Assign { .. } => b'M',
        Operation::Subtract { .. } => b'S',
        Operation::Ask { .. } => b'A',
        Operation::Save { .. } => b'L',
        Operation::Enter { .. } => b'F',
        Operation::Jump { .. } => b'J',
        Operation::Resume { .. } => b'T',
        Operation::Test { .. } => b'I',
        Operation::Throw { .. } => b'H',
    }
}
