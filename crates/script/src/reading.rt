ghost use Rattle.std.specs.Prelude.{◌≡◌, IfOk, IfErr, Option};
ghost use Rattle.script.specs.Blame.{Unread};
ghost use Rattle.script.specs.Fields.{Found};
ghost use Rattle.script.specs.Lines.{Reads};
ghost use Rattle.script.specs.Tables.{table_bytes};
ghost use Rattle.script.specs.Words.{words};
ghost use Rattle.script.specs.declared.expected.Expected.{Expected};
ghost use Rattle.script.specs.declared.line.Line.{Line};

use super::expected::Expected;
use super::form::form;
use super::hex;
use super::keyword::Keyword;
use super::line::Line;
use super::words::next_word;
use std::alloc::{AllocError, Global};

impl Line {
    /// What a line of a script asks for: nothing where it is empty or a comment. A line that reads as
    /// nothing else is an error, which says what was expected at the first word that does not fit.
    pub fn read(text: &[u8]) -> Result<Option<Line>, Expected>
        ensures reads { Found (Reads (words text.now)) result }
        ensures blames { IfErr result (λ e. Unread (words text.now) e) }
        ensures once { (d e : Expected) → Unread (words text.now) d → Unread (words text.now) e → d ≡ e }
        ensures alone { (x y : Option Line) → Reads (words text.now) x → Reads (words text.now) y → x ≡ y }
    {
        let Some((word, rest)) = next_word(text) else {
            return Ok(None);
        };
        if word[0] == b'#' {
            return Ok(None);
        }
        let keyword = Keyword::try_from(word)?;
        Ok(Some(form(keyword, rest)?))
    }

    /// The bytes of the table that a line carries as its second word; none if it has no such word.
    pub fn table(heap: Global, text: &[u8]) -> Result<Vec<u8>, AllocError>
        ensures { IfOk result (λ v. v.items ≡ table_bytes (words text.now)) }
    {
        // a match: a closure that allocates cannot be handed to `map_or`
        match next_word(text).and_then(|(_, rest)| next_word(rest)) {
            Some((word, _)) => hex::bytes(heap, word),
            None => Ok(Vec::new(heap)),
        }
    }
}
