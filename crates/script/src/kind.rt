ghost use Rattle.std.specs.Prelude.{◌≡◌, MatchResult, ◌≢◌};
ghost use Rattle.script.specs.Names.{kind_name};
ghost use Rattle.script.specs.declared.expected.Expected.TheVariants as expected;
ghost use Rattle.script.specs.declared.kind.Kind.{Kind as Kinds};

use super::expected::Expected;

/// A kind of bench, by how it keeps its placements.
#[derive(Clone, Copy, PartialEq, Eq, Debug)]
pub enum Kind {
    /// By site.
    Site,
    /// As a log.
    Log,
}

/// The kind that a word names.
impl<'a> TryFrom<&'a [u8]> for Kind {
    type Error = Expected;

    ghost try_from_gives = { λ w r. MatchResult r (λ k. w.now ≡ kind_name k) (λ e. (e ≡ expected.Kind) × ((k : Kinds) → w.now ≢ kind_name k)) };

    fn try_from(word: &'a [u8]) -> Result<Kind, Expected> {
        match word {
            b"site" => Ok(Kind::Site),
            b"log" => Ok(Kind::Log),
            _ => Err(Expected::Kind),
        }
    }
}
