ghost use Rattle.std.specs.Prelude.{◌≡◌};
ghost use Rattle.translation.specs.Numbers.{refusal_layer, refusal_cause, refusal_place};

use super::TranslationFault;

impl TranslationFault {
    // by match: a case with a field has no value of its own

    /// The number of the layer that found the fault, 1 to 4.
    pub fn layer(self) -> u8
        ensures { result ≡ refusal_layer self }
    {
        match self {
            TranslationFault::Table(fault) => fault.layer(),
            TranslationFault::Short => 4,
        }
    }

    /// The number of the cause, 1 to 16.
    pub fn cause(self) -> u8
        ensures { result ≡ refusal_cause self }
    {
        match self {
            TranslationFault::Table(fault) => fault.cause(),
            TranslationFault::Short => 16,
        }
    }

    /// The index of the record, or the number of records where something is missing at the end; 0 for
    /// a buffer.
    pub fn place(self) -> usize
        ensures { result ≡ refusal_place self }
    {
        match self {
            TranslationFault::Table(fault) => fault.place(),
            TranslationFault::Short => 0,
        }
    }
}
