ghost use Rattle.std.specs.Prelude.{◌≡◌, ◌<◌, length, Some};
ghost use Rattle.direct.specs.Programs.{records_in, StandsAt, LinkAt};
ghost use Rattle.language.specs.declared.record.Record.TheVariants.{Body};
ghost use Rattle.std.specs.List.{slice_get};

use super::super::link::Link;
use super::super::linking::{link_table, record_at};
use super::Program;
use language::{Instruction, Record};
use table::Table;

impl Program {
    /// Makes a table ready to run.
    pub fn new(table: Table) -> Program
        ensures { result.table ≡ table }
    {
        let links = link_table(&table);
        Program { table, links }
    }

    /// The instruction at a place.
    pub fn instruction(&self, at: u16) -> Instruction
        requires { StandsAt (records_in self.now) at }
        ensures { slice_get (records_in self.now) at ≡ Some (Body result) }
    {
        match record_at(&self.table, usize::from(at)) {
            Record::Body(i) => i,
            // a run stands at instructions only
            _ => unreachable(),
        }
    }

    /// The link of the record at a place.
    pub fn link(&self, at: u16) -> Link
        requires { at < length (records_in self.now) }
        ensures { LinkAt (records_in self.now) at result }
    {
        self.links.as_slice()[usize::from(at)]
    }
}
