ghost use Rattle.std.specs.Prelude.{◌≡◌};
ghost use Rattle.translation.specs.declared.fault.TranslationFault.TheVariants.{Table, Short};

use std::error::Error;
use table::TableFault;

mod numbers;
mod text;

/// The buffer has too few bytes for the translation.
#[derive(Clone, Copy, PartialEq, Eq, Debug)]
pub struct ShortBuffer;

/// Why nothing was translated: the bytes are no table, or the buffer is too short.
#[derive(Clone, Copy, PartialEq, Eq, Debug)]
pub enum TranslationFault {
    Table(TableFault),
    Short,
}

impl Error for TranslationFault {}

impl From<TableFault> for TranslationFault {
    ghost from_gives = { λ f r. r ≡ Table f };

    fn from(fault: TableFault) -> TranslationFault {
        TranslationFault::Table(fault)
    }
}

impl From<ShortBuffer> for TranslationFault {
    ghost from_gives = { λ f r. r ≡ Short };

    fn from(_: ShortBuffer) -> TranslationFault {
        TranslationFault::Short
    }
}
