ghost use Rattle.std.specs.Prelude.{ℤ, MatchOption};
ghost use Rattle.script.specs.Numbers.{Writes};

/// The number that a word writes in base ten, if it writes one of 32 bits.
pub fn number(word: &[u8]) -> Option<i32>
    ensures { MatchOption result ((z : ℤ) → Writes word.now z → ⊥) (λ z. Writes word.now z) }
{
    let text = std::str::from_utf8(word).ok()?;
    text.parse().ok()
}
