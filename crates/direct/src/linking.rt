//! The names in a table, looked up once for each record.

ghost use Rattle.std.specs.Prelude.{◌≡◌, ◌<◌, length, IfSome, Some};
ghost use Rattle.std.specs.List.{slice_get};
ghost use Rattle.direct.specs.Links.{own_handler_of, Opens, Leads, EntersAt, LinkedBy, HandledBy, Linked};
ghost use Rattle.few.specs.Held.{held};
ghost use Rattle.table.specs.Checked.{records_of};

use super::link::{Link, Target};
use few::Few;
use language::{Handler, Instruction, Record};
use scopes::Scope;
use table::{MOST_RECORDS, Table};

// each function takes the table alone, and none asks anything of it

/// The links of a table's records.
pub fn link_table(table: &Table) -> Few<Link, MOST_RECORDS>
    ensures { Linked (records_of table.now) (held result) }
{
    let mut links = Few::new(Link::NONE);
    let mut scope = Scope::nowhere();
    for next in table.records() {
        scope = scope.at(*next);
        links.push(link(table, scope, *next)).unwrap();
    }
    links
}

/// The link of one record.
fn link(table: &Table, scope: Scope, next: Record) -> Link
    ensures names { LinkedBy (records_of table.now) scope.routine next result }
    ensures handler { HandledBy (records_of table.now) scope.routine scope.handler result.handler }
{
    let handler = handler_target(table, scope);
    let routine = scope.routine;
    match next {
        Record::Body(Instruction::Goto { label }) => Link {
            goes: block_target(table, routine, label),
            otherwise: Target::NOWHERE,
            handler,
        },
        Record::Body(
            Instruction::Branch {
                then,
                otherwise,
                ..
            },
        ) => Link {
            goes: block_target(table, routine, then),
            otherwise: block_target(table, routine, otherwise),
            handler,
        },
        Record::Body(Instruction::Call { routine, .. }) => Link {
            goes: routine_target(table, routine),
            otherwise: Target::NOWHERE,
            handler,
        },
        _ => Link {
            goes: Target::NOWHERE,
            otherwise: Target::NOWHERE,
            handler,
        },
    }
}

/// Where the handler of a block leads.
fn handler_target(table: &Table, scope: Scope) -> Target
    ensures { HandledBy (records_of table.now) scope.routine scope.handler result }
{
    scope.handler.map_or(
        Target::NOWHERE,
        |handler| block_target(table, scope.routine, handler.label),
    )
}

/// Where a jump to a block leads.
fn block_target(table: &Table, routine: u8, label: u8) -> Target
    ensures { Leads (records_of table.now) routine label result }
{
    target(table, table.block(routine, label))
}

/// Where a call of a routine leads.
fn routine_target(table: &Table, identifier: u8) -> Target
    ensures { EntersAt (records_of table.now) identifier result }
{
    target(table, table.routine(identifier))
}

/// The first instruction under a heading, which is under the handler that the heading has.
fn target(table: &Table, heading: Option<usize>) -> Target
    requires { IfSome heading (λ place. place < length (records_of table.now)) }
    ensures { Opens (records_of table.now) heading result }
{
    heading.map_or(
        Target::NOWHERE,
        |place| Target {
            at: place as u16 + 1,
            handler: own_handler(record_at(table, place)),
        },
    )
}

/// The handler of the block that a record heads.
fn own_handler(heading: Record) -> Option<Handler>
    ensures { result ≡ own_handler_of heading }
{
    match heading {
        Record::Block { handler, .. } => handler,
        _ => None,
    }
}

/// The record at a place.
pub fn record_at(table: &Table, place: usize) -> Record
    requires { place < length (records_of table.now) }
    ensures { slice_get (records_of table.now) place ≡ Some result }
{
    table.records()[place]
}
