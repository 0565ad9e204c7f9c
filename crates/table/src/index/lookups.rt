ghost use Rattle.std.specs.Prelude.{◌≡◌};
ghost use Rattle.few.specs.Held.{held};
ghost use Rattle.table.specs.Entries.{routine_found, block_found};

use super::super::entries::{BlockEntry, BlockKey, RoutineEntry};
use super::super::lookup::first;
use super::Index;

impl Index {
    /// The first entry of a routine.
    pub fn routine(&self, identifier: u8) -> Option<RoutineEntry>
        ensures { result ≡ routine_found (held self.now.routines) identifier }
    {
        first(self.routines.as_slice(), &identifier)
    }

    /// The first entry of a block.
    pub fn block(&self, routine: u8, label: u8) -> Option<BlockEntry>
        ensures { result ≡ block_found (held self.now.blocks) routine label }
    {
        first(self.blocks.as_slice(), &BlockKey { routine, label })
    }
}
