ghost use Rattle.std.specs.Prelude.{◌≤◌, length};
ghost use Rattle.table.specs.Entries.{routine_entries, block_entries};
ghost use Rattle.table.specs.Indexes.{Indexes};

use super::super::entries::{BlockEntry, BlockKey, RoutineEntry};
use super::Index;
use few::Few;
use language::Record;
use scopes::Scope;

impl Index {
    /// The entries of records that have few enough headings.
    pub fn new(records: &[Record]) -> Index
        requires routines { length (routine_entries records.now) ≤ 16 }
        requires blocks { length (block_entries records.now) ≤ 64 }
        ensures { Indexes result records.now }
    {
        // filled where it lies: lists put together at the end are copied entry by entry
        let mut index = Index {
            routines: Few::new(RoutineEntry {
                identifier: 0,
                parameters: 0,
                place: 0,
            }),
            blocks: Few::new(BlockEntry {
                key: BlockKey {
                    routine: 0,
                    label: 0,
                },
                place: 0,
            }),
        };
        let mut scope = Scope::nowhere();
        for (place, at) in records.iter().enumerate() {
            scope = scope.at(*at);
            match *at {
                Record::Routine {
                    identifier,
                    parameters,
                    ..
                } => {
                    index
                        .routines
                        .push(RoutineEntry {
                            identifier,
                            parameters,
                            place,
                        })
                        .unwrap();
                }
                Record::Block { label, .. } => {
                    let routine = scope.routine;
                    index
                        .blocks
                        .push(BlockEntry {
                            key: BlockKey { routine, label },
                            place,
                        })
                        .unwrap();
                }
                Record::Body(_) => {}
            }
        }
        index
    }
}
