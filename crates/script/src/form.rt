//! The forms of a line: what the words after a keyword say with it.
ghost use Rattle.std.specs.Prelude.{◌≡◌, length, replicate, MatchResult};
ghost use Rattle.script.specs.Blame.{fields, Blames};
ghost use Rattle.script.specs.Lines.{Numbers, Says};
ghost use Rattle.script.specs.Words.{words};

use super::expected::Expected;
use super::field;
use super::keyword::Keyword;
use super::line::Line;
use super::pairing::Pairing;
use bench::Request;

// a match and no table of functions: the check sees which form each keyword has

/// What a text says after a keyword.
pub fn form(keyword: Keyword, text: &[u8]) -> Result<Line, Expected>
    ensures { MatchResult result (Says keyword (words text.now)) (Blames (fields keyword) (words text.now)) }
{
    match keyword {
        Keyword::Bench => bench(text),
        Keyword::Turn => turn(text),
        Keyword::Load => load(text),
        Keyword::Jog => jog(text),
        Keyword::State => state(text),
    }
}

/// Two kinds and eight counts.
fn bench(text: &[u8]) -> Result<Line, Expected>
    ensures { MatchResult result (Says Keyword.Bench (words text.now)) (Blames (fields Keyword.Bench) (words text.now)) }
{
    let (first, text) = field::kind(text)?;
    let (second, text) = field::kind(text)?;
    let counts = counts(text)?;
    Ok(Line::Bench(Pairing {
        first,
        second,
        counts,
    }))
}

/// Eight counts, and no further word.
fn counts(text: &[u8]) -> Result<[i32; 8], Expected>
    ensures { MatchResult result (λ cs. Numbers (words text.now) cs × (length cs ≡ 8)) (Blames (replicate 8 Expected.Counts) (words text.now)) }
{
    let mut counts = [0; 8];
    let mut rest = text;
    for count in counts.iter_mut() {
        let Ok((number, after)) = field::number(rest) else {
            return Err(Expected::Counts);
        };
        *count = number;
        rest = after;
    }
    field::end(rest)?;
    Ok(counts)
}

/// A shift.
fn turn(text: &[u8]) -> Result<Line, Expected>
    ensures { MatchResult result (Says Keyword.Turn (words text.now)) (Blames (fields Keyword.Turn) (words text.now)) }
{
    let (shift, text) = field::number(text)?;
    field::end(text)?;
    Ok(Line::Turn(shift))
}

/// The bytes of a table.
fn load(text: &[u8]) -> Result<Line, Expected>
    ensures { MatchResult result (Says Keyword.Load (words text.now)) (Blames (fields Keyword.Load) (words text.now)) }
{
    let ((), text) = field::table(text)?;
    field::end(text)?;
    Ok(Line::Load)
}

/// An operation and a number.
fn jog(text: &[u8]) -> Result<Line, Expected>
    ensures { MatchResult result (Says Keyword.Jog (words text.now)) (Blames (fields Keyword.Jog) (words text.now)) }
{
    let (operation, text) = field::number(text)?;
    let (number, text) = field::number(text)?;
    field::end(text)?;
    Ok(Line::Jog(Request { operation, number }))
}

/// No further word.
fn state(text: &[u8]) -> Result<Line, Expected>
    ensures { MatchResult result (Says Keyword.State (words text.now)) (Blames (fields Keyword.State) (words text.now)) }
{
    field::end(text)?;
    Ok(Line::State)
}
