ghost use Rattle.std.specs.Prelude.{◌≡◌, MatchResult, ◌≢◌};
ghost use Rattle.script.specs.Names.{keyword_name};
ghost use Rattle.script.specs.declared.expected.Expected.TheVariants as expected;
ghost use Rattle.script.specs.declared.keyword.Keyword.{Keyword as Key};

use super::expected::Expected;

/// The first word of a line: it says what the others are.
#[derive(Clone, Copy, PartialEq, Eq, Debug)]
pub enum Keyword {
    Bench,
    Turn,
    Load,
    Jog,
    State,
}

/// The keyword that a word spells.
impl<'a> TryFrom<&'a [u8]> for Keyword {
    type Error = Expected;

    ghost try_from_gives = { λ w r. MatchResult r (λ k. w.now ≡ keyword_name k) (λ e. (e ≡ expected.Keyword) × ((k : Key) → w.now ≢ keyword_name k)) };

    fn try_from(word: &'a [u8]) -> Result<Keyword, Expected> {
        match word {
            b"bench" => Ok(Keyword::Bench),
            b"turn" => Ok(Keyword::Turn),
            b"load" => Ok(Keyword::Load),
            b"jog" => Ok(Keyword::Jog),
            b"state" => Ok(Keyword::State),
            _ => Err(Expected::Keyword),
        }
    }
}
