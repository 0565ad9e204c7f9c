ghost use Rattle.std.specs.Prelude.{◌≡◌};
ghost use Rattle.language.specs.Causes.{record_number_of, block_number_of, name_number_of};

/// Why a record is no record, by its bytes alone.
#[derive(Clone, Copy, PartialEq, Eq, Debug)]
pub enum RecordCause {
    /// The table has no byte, too many, or a part of a record.
    Length = 1,
    /// The first byte is no record's letter.
    Letter = 2,
    /// A field is outside its range.
    Range = 3,
    /// A byte that should be 0 is not.
    Padding = 4,
}

impl RecordCause {
    // one for each enum: no generic function reads the value of a case
    /// The number that the cause is known by outside.
    pub fn number(self) -> u8
        ensures { result ≡ record_number_of self }
    {
        self as u8
    }
}

/// Why records do not make blocks.
#[derive(Clone, Copy, PartialEq, Eq, Debug)]
pub enum BlockCause {
    /// The table begins with no routine.
    Headless = 5,
    /// A heading, or the end of the table, where a block is still open.
    Unclosed = 6,
    /// An instruction where no block is open.
    Trailing = 7,
    /// One routine, or one block, too many.
    Crowded = 8,
}

impl BlockCause {
    // one for each enum: no generic function reads the value of a case
    /// The number that the cause is known by outside.
    pub fn number(self) -> u8
        ensures { result ≡ block_number_of self }
    {
        self as u8
    }
}

/// Why the names in a table do not fit together.
#[derive(Clone, Copy, PartialEq, Eq, Debug)]
pub enum NameCause {
    /// An earlier routine has the identifier.
    RepeatedRoutine = 9,
    /// An earlier block of the routine has the label.
    RepeatedBlock = 10,
    /// There is no routine 0, where a run starts.
    NoMain = 11,
    /// The routine has no such variable.
    NoVariable = 12,
    /// The routine has no block with the label.
    NoBlock = 13,
    /// No routine has the identifier that is called.
    NoRoutine = 14,
    /// The called routine takes another number of arguments.
    ArgumentCount = 15,
}

impl NameCause {
    // one for each enum: no generic function reads the value of a case
    /// The number that the cause is known by outside.
    pub fn number(self) -> u8
        ensures { result ≡ name_number_of self }
    {
        self as u8
    }
}
