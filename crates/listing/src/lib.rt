//! The listing of a table: one line for each word of its translation, or one that tells why there is
//! none.
#![tactic(auto)]

ghost use Rattle.std.specs.Prelude.{◌≡◌, ◌++◌, length, IfOk, OnOk, string_bytes};
ghost use Rattle.listing.specs.Texts.{word_text_of, code_text_of, refusal_text_of as text_of, Lists};
ghost use Rattle.translation.specs.Numbers.{refusal_layer, refusal_cause, refusal_place};

use std::alloc::{AllocError, Global};
use translation::{MOST_BYTES, TranslationFault, translate_bytes};

/// The listing of the table that the bytes hold.
pub fn list_table(heap: Global, bytes: &[u8]) -> Result<String, AllocError>
    ensures { IfOk result (λ s. Lists bytes.now (string_bytes s)) }
{
    // the translator writes into memory that its caller has, and tells how much of it
    let mut code = [0; MOST_BYTES];
    match translate_bytes(bytes, &mut code) {
        Ok(written) => code_text(heap, &code[..written]),
        Err(fault) => refusal_text(heap, fault),
    }
}

/// A line for each word.
fn code_text(heap: Global, code: &[u8]) -> Result<String, AllocError>
    ensures { IfOk result (λ s. string_bytes s ≡ code_text_of code.now) }
{
    let (words, _) = code.as_chunks::<8>();
    let mut text = String::new(heap);
    for (address, word) in words.iter().enumerate() {
        write_word(&mut text, address, *word)?;
    }
    Ok(text)
}

/// Adds the line of one word: its address, its letter, and the bytes after it.
fn write_word(text: &mut String, address: usize, word: [u8; 8]) -> Result<(), AllocError>
    ensures { OnOk result (string_bytes text.new ≡ string_bytes text.old ++ word_text_of address word) }
{
    let letter = char::from(word[0]);
    write!(text, "{address} {letter}")?;
    for field in &word[1..] {
        write!(text, " {field}")?;
    }
    writeln!(text)
}

/// The line that tells of a refusal.
fn refusal_text(heap: Global, fault: TranslationFault) -> Result<String, AllocError>
    ensures { IfOk result (λ s. string_bytes s ≡ text_of (refusal_layer fault) (refusal_cause fault) (refusal_place fault)) }
{
    format!(in heap; "refused {fault}\n")
}
