//! Words written into a buffer, one after another.

ghost use Rattle.std.specs.Prelude.{◌≡◌, ◌+◌, ◌*◌, ◌≤◌, length};
ghost use Rattle.std.specs.List.{flat_map};
ghost use Rattle.language.specs.Code.{word_bytes, code};
ghost use Rattle.language.specs.Translation.{clears, size, words as words_of, translation};
ghost use Rattle.language.specs.Bytes.{InRange};
ghost use Rattle.translation.specs.Buffers.{Appends, over};
ghost use Rattle.translation.specs.Layouts.{laid_out};

use super::super::encoding::encode;
use super::Layout;
use super::words::small;
use language::{Operation, Record, Word};
use scopes::Scope;

// the buffer and the place in it go side by side: a struct that held both would have to promise, in each
// of its methods, that it still holds the same `&mut`, of the same length

/// Writes one word at a place, and gives the place after it.
fn put(out: &mut [u8], at: usize, word: Word) -> usize
    requires { at + 8 ≤ length out.old }
    ensures wide { length (word_bytes word) ≡ 8 }
    ensures appends { Appends at (word_bytes word) out.old out.new result }
{
    let bytes = encode(word);
    out[at..at + 8].copy_from_slice(&bytes);
    at + 8
}

/// Writes the words of an instruction.
fn put_words(out: &mut [u8], at: usize, words: &[Word]) -> usize
    requires { at + 8 * length words.now ≤ length out.old }
    ensures next { result ≡ at + 8 * length words.now }
    ensures appends { Appends at (flat_map word_bytes words.now) out.old out.new result }
{
    let mut next = at;
    for word in words {
        next = put(out, next, *word);
    }
    next
}

/// Writes a word for each local of a routine, which clears it.
fn put_clears(out: &mut [u8], at: usize, parameters: u8, locals: u8) -> usize
    requires few { parameters + locals ≤ 16 }
    requires room { at + 8 * locals ≤ length out.old }
    ensures next { result ≡ at + 8 * locals }
    ensures appends { Appends at (flat_map word_bytes (clears parameters locals)) out.old out.new result }
{
    let mut next = at;
    for x in parameters..parameters + locals {
        next = put(out, next, small(Operation::Set { x, value: 0 }));
    }
    next
}

impl Layout<'_> {
    /// Writes the words of a record.
    fn put_record(&self, out: &mut [u8], at: usize, scope: Scope, next: Record) -> usize
        requires ranged { InRange next }
        requires room { at + 8 * size scope.handler next ≤ length out.old }
        ensures place { result ≡ at + 8 * size scope.handler next }
        ensures appends { Appends at (flat_map word_bytes (words_of (laid_out self.now) scope.routine scope.handler next)) out.old out.new result }
    {
        match next {
            Record::Routine {
                parameters,
                locals,
                ..
            } => put_clears(out, at, parameters, locals),
            Record::Block { .. } => at,
            Record::Body(i) => put_words(out, at, self.translate_instruction(scope, i).as_slice()),
        }
    }

    /// Writes the words of the table, and gives their length.
    pub fn put(&self, out: &mut [u8]) -> usize
        requires room { 8 * length (translation (laid_out self.now)) ≤ length out.old }
        ensures count { result ≡ length (code (laid_out self.now)) }
        ensures after { out.new ≡ over (code (laid_out self.now)) out.old }
    {
        let mut at = 0;
        let mut scope = Scope::nowhere();
        for next in self.table.records() {
            scope = scope.at(*next);
            at = self.put_record(out, at, scope, *next);
        }
        at
    }
}
