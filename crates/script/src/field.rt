//! The fields of a line: what one word stands for, and the text after it.
ghost use Rattle.std.specs.Prelude.{◌≡◌, [], MatchResult, ◌≢◌};
ghost use Rattle.script.specs.Fields.{Takes, Lacks};
ghost use Rattle.script.specs.Told.{Told, Misses};
ghost use Rattle.script.specs.Names.{Names};
ghost use Rattle.script.specs.Numbers.{Writes};
ghost use Rattle.script.specs.Tables.{HexIs};
ghost use Rattle.script.specs.Words.{words};

use super::expected::Expected;
use super::kind::Kind;
use super::words::next_word;
use super::{hex, number};

/// What the first word of a text stands for, and the text after it.
fn field<'a, T, F: FnOnce(&[u8]) -> Option<T>>(
    text: &'a [u8],
    read: F,
    expected: Expected,
) -> Result<(T, &'a [u8]), Expected>
    requires { F.IsAlwaysCallable read }
    ensures { MatchResult result (λ p. Takes (Told F.FnOnce read) (words text.now) p.0 (words p.1.now)) (λ e. (e ≡ expected) × Misses F.FnOnce read (words text.now)) }
{
    let (word, rest) = next_word(text).ok_or(expected)?;
    let value = read(word).ok_or(expected)?;
    Ok((value, rest))
}

/// A kind of bench.
pub fn kind(text: &[u8]) -> Result<(Kind, &[u8]), Expected>
    ensures { MatchResult result (λ p. Takes Names (words text.now) p.0 (words p.1.now)) (λ e. (e ≡ Expected.Kind) × Lacks Names (words text.now)) }
{
    field(text, |word| Kind::try_from(word).ok(), Expected::Kind)
}

/// A number.
pub fn number(text: &[u8]) -> Result<(i32, &[u8]), Expected>
    ensures { MatchResult result (λ p. Takes Writes (words text.now) p.0 (words p.1.now)) (λ e. (e ≡ Expected.Number) × Lacks Writes (words text.now)) }
{
    field(text, number::number, Expected::Number)
}

/// The bytes of a table.
pub fn table(text: &[u8]) -> Result<((), &[u8]), Expected>
    ensures { MatchResult result (λ p. Takes HexIs (words text.now) tt (words p.1.now)) (λ e. (e ≡ Expected.Table) × Lacks HexIs (words text.now)) }
{
    field(
        text,
        |word| hex::is_hex(word).then_some(()),
        Expected::Table,
    )
}

/// The end of a line.
pub fn end(text: &[u8]) -> Result<(), Expected>
    ensures { MatchResult result (λ _. words text.now ≡ []) (λ e. (e ≡ Expected.End) × (words text.now ≢ [])) }
{
    // a match: no word is the good case
    match next_word(text) {
        None => Ok(()),
        Some(_) => Err(Expected::End),
    }
}
