ghost use Rattle.std.specs.Prelude.{◌≡◌};
ghost use Rattle.table.specs.declared.fault.TableFault.TheVariants.{Records, Blocks, Names};

use language::{BlockCause, NameCause, RecordCause};
use std::error::Error;

mod numbers;
mod text;

/// A cause, and the place at which it stands: the index of a record, or the number of records where
/// something is missing at the end.
#[derive(Clone, Copy, PartialEq, Eq, Debug)]
pub struct Located<C> {
    pub cause: C,
    pub place: usize,
}

/// The bytes at a place make no record.
pub type RecordFault = Located<RecordCause>;

/// The record at a place stands where it must not, or the table ends where it must not.
pub type BlockFault = Located<BlockCause>;

/// A name at a place is borne twice, or stands for nothing.
pub type NameFault = Located<NameCause>;

/// Why some bytes are no table: the fault of the layer that found one.
#[derive(Clone, Copy, PartialEq, Eq, Debug)]
pub enum TableFault {
    Records(RecordFault),
    Blocks(BlockFault),
    Names(NameFault),
}

impl Error for TableFault {}

impl From<RecordFault> for TableFault {
    ghost from_gives = { λ f r. r ≡ Records f };

    fn from(fault: RecordFault) -> TableFault {
        TableFault::Records(fault)
    }
}

impl From<BlockFault> for TableFault {
    ghost from_gives = { λ f r. r ≡ Blocks f };

    fn from(fault: BlockFault) -> TableFault {
        TableFault::Blocks(fault)
    }
}

impl From<NameFault> for TableFault {
    ghost from_gives = { λ f r. r ≡ Names f };

    fn from(fault: NameFault) -> TableFault {
        TableFault::Names(fault)
    }
}
