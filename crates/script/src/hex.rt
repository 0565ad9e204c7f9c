//! Bytes as a word of hexadecimal digits.
ghost use Rattle.std.specs.Prelude.{◌≡◌, ◌<◌, IfOk, Decides, SomeIff};
ghost use Rattle.std.specs.Char.{digit_value};
ghost use Rattle.script.specs.Tables.{Hex, Pairs, pair_value, hex_bytes};

use std::alloc::{AllocError, Global};

/// What a hexadecimal digit is worth, if the byte is one.
fn digit(byte: u8) -> Option<u8>
    ensures { SomeIff result (digit_value byte < 16) (digit_value byte) }
{
    // by ranges: a load line is read twice, digit by digit, and `to_digit` takes longer
    match byte {
        b'0'..=b'9' => Some(byte - b'0'),
        b'a'..=b'f' => Some(byte - b'a' + 10),
        b'A'..=b'F' => Some(byte - b'A' + 10),
        _ => None,
    }
}

/// Whether a word is made of pairs of digits.
fn is_pairs(word: &[u8]) -> bool
    ensures { Decides result (Pairs word.now) }
{
    word.len() % 2 == 0 && word.iter().all(|byte| digit(*byte).is_some())
}

/// Whether a word stands for bytes.
pub fn is_hex(word: &[u8]) -> bool
    ensures { Decides result (Hex word.now) }
{
    match word {
        b"-" => true,
        _ => is_pairs(word),
    }
}

/// What a pair of digits is worth; a digit that is none is worth 0.
fn pair(digits: &[u8; 2]) -> u8
    ensures { result ≡ pair_value digits.now }
{
    digit(digits[0]).unwrap_or(0) * 16 + digit(digits[1]).unwrap_or(0)
}

/// The bytes that a word stands for.
pub fn bytes(heap: Global, word: &[u8]) -> Result<Vec<u8>, AllocError>
    ensures { IfOk result (λ v. v.items ≡ hex_bytes word.now) }
{
    let (pairs, _) = word.as_chunks::<2>();
    pairs.iter().map(pair).collect(heap)
}
