ghost use Rattle.std.specs.Prelude.{◌≤◌, length};
ghost use Rattle.table.specs.Entries.{routine_entries, block_entries};
ghost use Rattle.table.specs.Names.{Tied};

use super::fault::{Located, NameFault};
use super::index::Index;
use language::{NameCause, Record};
use scopes::Scope;

/// Layer 3: the entries of a table whose names fit together, or the first fault.
pub fn check_names(records: &[Record]) -> Result<Index, NameFault>
    requires routines { length (routine_entries records.now) ≤ 16 }
    requires blocks { length (block_entries records.now) ≤ 64 }
    ensures { Tied records.now result }
{
    let index = Index::new(records);
    let mut scope = Scope::nowhere();
    for (place, at) in records.iter().enumerate() {
        scope = scope.at(*at);
        if let Some(cause) = index.flaw(scope, place, *at) {
            return Err(Located { cause, place });
        }
    }
    index.routine(0).ok_or(Located {
        cause: NameCause::NoMain,
        place: records.len(),
    })?;
    Ok(index)
}
