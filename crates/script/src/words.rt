ghost use Rattle.std.specs.Prelude.{◌≡◌, ◌<◌, [], ◌∷◌, length, MatchOption};
ghost use Rattle.script.specs.Words.{blank, words};

/// Whether a byte parts words: a space, a tab or a carriage return.
fn is_blank(byte: u8) -> bool
    ensures { result ≡ blank byte }
{
    matches!(byte, b' ' | b'\t' | b'\r')
}

/// The first word of a text, and the text after it.
pub fn next_word(text: &[u8]) -> Option<(&[u8], &[u8])>
    ensures { MatchOption result (words text.now ≡ []) (λ p. (words text.now ≡ p.0.now ∷ words p.1.now) × (0 < length p.0.now)) }
{
    let start = text.iter().position(|byte| !is_blank(*byte))?;
    let (_, text) = text.split_at(start);
    let end = text.iter().position(|byte| is_blank(*byte));
    Some(text.split_at(end.unwrap_or(text.len())))
}
