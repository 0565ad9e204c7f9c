ghost use Rattle.std.specs.Prelude.{◌≡◌};
ghost use Rattle.language.specs.Lines.{routine_place, block_place};
ghost use Rattle.language.specs.WellFormed.{WellFormed};
ghost use Rattle.table.specs.Checked.{records_of};
ghost use Rattle.table.specs.Mains.{StartsWith};

use super::super::entry_point::Main;
use super::Table;
use language::Record;

impl Table {
    /// The records, which are well formed.
    pub fn records(&self) -> &[Record]
        ensures same { result.now ≡ records_of self.now }
        ensures formed { WellFormed result.now }
    {
        self.records.as_slice()
    }

    /// The place of the heading of a routine, if it is there.
    pub fn routine(&self, identifier: u8) -> Option<usize>
        ensures { result ≡ routine_place (records_of self.now) identifier }
    {
        self.index.routine(identifier).map(|entry| entry.place)
    }

    /// The routine that a run starts with, routine 0.
    pub fn main(&self) -> Main
        ensures { StartsWith (records_of self.now) result }
    {
        let entry = self.index.routine(0).unwrap();
        Main {
            place: entry.place,
            parameters: entry.parameters,
        }
    }

    /// The place of the heading of a block of a routine, if it is there.
    pub fn block(&self, routine: u8, label: u8) -> Option<usize>
        ensures { result ≡ block_place (records_of self.now) routine label }
    {
        self.index.block(routine, label).map(|entry| entry.place)
    }
}
