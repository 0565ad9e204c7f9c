ghost use Rattle.std.specs.Prelude.{◌≡◌};
ghost use Rattle.table.specs.Faults.{fault_layer, fault_cause, fault_place};

use super::{Located, TableFault};

impl TableFault {
    // by match: a case with a field has no value of its own

    /// The number of the layer that found the fault, 1 to 3.
    pub fn layer(self) -> u8
        ensures { result ≡ fault_layer self }
    {
        match self {
            TableFault::Records(_) => 1,
            TableFault::Blocks(_) => 2,
            TableFault::Names(_) => 3,
        }
    }

    /// The number of the cause, 1 to 15.
    pub fn cause(self) -> u8
        ensures { result ≡ fault_cause self }
    {
        match self {
            TableFault::Records(fault) => fault.cause.number(),
            TableFault::Blocks(fault) => fault.cause.number(),
            TableFault::Names(fault) => fault.cause.number(),
        }
    }

    /// The index of the record, or the number of records where something is missing at the end.
    pub fn place(self) -> usize
        ensures { result ≡ fault_place self }
    {
        match self {
            TableFault::Records(Located { place, .. })
            | TableFault::Blocks(Located { place, .. })
            | TableFault::Names(Located { place, .. }) => place,
        }
    }
}
