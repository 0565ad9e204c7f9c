//! What is claimed of the translation of a table to continuation form.

ghost use Rattle.std.specs.Prelude.{◌≡◌, ℕ, List, Some};
ghost use Rattle.std.specs.List.{slice_get};
ghost use Rattle.language.specs.declared.record.Record.{Record};
ghost use Rattle.language.specs.declared.word.Word.{Word};
ghost use Rattle.language.specs.WellFormed.{WellFormed};
ghost use Rattle.language.specs.Code.{word_bytes};
ghost use Rattle.language.specs.CodeWords.{EncodableWord, Limited, ReadBack};
ghost use Rattle.language.specs.Theorems.{FixedBy};
ghost use Rattle.language.specs.Translation.{translation};
ghost use Rattle.language.specs.Translated.{Placed, Opened, Begun, Lettered, Held, picking, picking_words};

/// The words of each record stand at its address.
pub fn words_stand_at_their_address()
    ensures { (t : List Record) → Placed t }
{}

/// A beat is opened exactly where an instruction's words begin.
pub fn instructions_open_beats()
    ensures { (t : List Record) → Opened t }
{}

/// Each block, a routine's entry too, begins with a beat.
pub fn blocks_begin_with_a_beat()
    ensures { (t : List Record) → WellFormed t → Begun t }
{}

/// A capital is written exactly where a beat is opened.
pub fn capitals_open_beats()
    ensures { (w : Word) → Lettered w }
{}

/// A table of 976 words holds every translation, eight bytes a word.
pub fn translations_are_held()
    ensures { (t : List Record) → WellFormed t → Held t }
{}

/// Eight bytes stand for at most one word in range.
pub fn bytes_fix_word()
    ensures { FixedBy word_bytes EncodableWord }
{}

/// At each address, the bytes of a translation hold the word that the translation has there, and no
/// other; where it has none, they hold none.
pub fn words_are_read_back()
    ensures { (t : List Record) → WellFormed t → (a : ℕ) (w : Word) → ReadBack t a w }
{}

/// No word of a translation names a variable that there is not.
pub fn words_are_limited()
    ensures { (t : List Record) → WellFormed t → (a : ℕ) (w : Word) → slice_get (translation t) a ≡ Some w → Limited w.operation }
{}

/// The translation of a routine that calls another, which picks.
pub fn a_call_and_a_pick_are_translated()
    ensures { translation picking ≡ picking_words }
{}
