ghost use Rattle.table.specs.Blocks.{Built, Flawed, after};
ghost use Rattle.std.specs.Prelude.{◌≡◌};

use super::fault::{BlockFault, Located};
use language::{BlockCause, Instruction, Record};

/// The most routines and the most blocks that a table has.
pub const MOST_ROUTINES: usize = 16;

pub const MOST_BLOCKS: usize = 64;

/// What comes before a record: nothing, a block that is still open, or one that is closed.
#[derive(Clone, Copy, PartialEq, Eq, Debug)]
enum Flow {
    Start,
    Open,
    Closed,
}

impl Flow {
    /// How it goes on after a record.
    fn after(at: Record) -> Flow
        ensures { result ≡ after at }
    {
        match at {
            Record::Body(
                Instruction::Goto { .. }
                | Instruction::Return { .. }
                | Instruction::Branch { .. }
                | Instruction::Raise { .. },
            ) => Flow::Closed,
            _ => Flow::Open,
        }
    }
}

/// Layer 2: whether the records make routines of blocks, or the first fault.
pub fn check_blocks(records: &[Record]) -> Result<(), BlockFault>
    ensures { Built records.now result }
{
    let mut flow = Flow::Start;
    let mut routines: usize = 0;
    let mut blocks: usize = 0;
    for (place, at) in records.iter().enumerate() {
        if let Some(cause) = flaw(flow, *at, routines, blocks) {
            return Err(Located { cause, place });
        }
        match at {
            Record::Routine { .. } => routines += 1,
            Record::Block { .. } => blocks += 1,
            Record::Body(_) => {}
        }
        flow = Flow::after(*at);
    }
    match flow {
        Flow::Open => Err(Located {
            cause: BlockCause::Unclosed,
            place: records.len(),
        }),
        _ => Ok(()),
    }
}

/// The lowest cause at one record, by what comes before it and how many headings.
fn flaw(flow: Flow, at: Record, routines: usize, blocks: usize) -> Option<BlockCause>
    ensures { Flawed flow at routines blocks result }
{
    match (flow, at) {
        (Flow::Start, Record::Block { .. } | Record::Body(_)) => Some(BlockCause::Headless),
        (Flow::Open, Record::Routine { .. } | Record::Block { .. }) => Some(BlockCause::Unclosed),
        (Flow::Closed, Record::Body(_)) => Some(BlockCause::Trailing),
        (_, Record::Routine { .. }) if routines == MOST_ROUTINES => Some(BlockCause::Crowded),
        (_, Record::Block { .. }) if blocks == MOST_BLOCKS => Some(BlockCause::Crowded),
        _ => None,
    }
}
