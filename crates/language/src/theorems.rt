ghost use Rattle.std.specs.Prelude.{ℕ, List};
ghost use Rattle.language.specs.declared.record.Record.{Record};
ghost use Rattle.language.specs.Bytes.{encode, bytes, InRange};
ghost use Rattle.language.specs.WellFormed.{Legible, WellFormed, WellFormedBytes};
ghost use Rattle.language.specs.Refusals.{RecordsClear, BlocksClear, NamesClear, Refused};
ghost use Rattle.language.specs.Theorems.{FixedBy, Accepted, AtMostOne, Near};

/// Eight bytes stand for at most one record in range.
pub fn bytes_fix_record()
    ensures { FixedBy encode InRange }
{}

/// Bytes hold at most one table.
pub fn bytes_fix_table()
    ensures { FixedBy bytes Legible }
{}

/// A table that is legible and free of every cause of the upper layers is well formed.
pub fn clear_is_well_formed()
    ensures { (t : List Record) → Legible t → BlocksClear t → NamesClear t → WellFormed t }
{}

/// A well-formed table is free of every cause.
pub fn well_formed_is_clear()
    ensures { (t : List Record) → WellFormed t → RecordsClear (bytes t) × BlocksClear t × NamesClear t }
{}

/// No refusal fits the bytes of a well-formed table.
pub fn well_formed_is_accepted()
    ensures { (bs : List ℕ) → WellFormedBytes bs → Accepted bs }
{}

/// At most one refusal fits.
pub fn one_refusal_fits()
    ensures { (bs : List ℕ) → AtMostOne (Refused bs) }
{}

/// The place of a refusal is at most 256.
pub fn refusals_are_near()
    ensures { (bs : List ℕ) → Near 256 (Refused bs) }
{}
