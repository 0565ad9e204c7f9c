use super::handler::Handler;
use super::instruction::Instruction;

/// A record of a table: the heading of a routine or of a block, or an instruction in a block's body.
/// A routine's heading opens its entry block too, which has no label and no handler.
#[derive(Clone, Copy, PartialEq, Eq, Debug)]
pub enum Record {
    Routine {
        identifier: u8,
        parameters: u8,
        locals: u8,
    },
    Block {
        label: u8,
        handler: Option<Handler>,
    },
    Body(Instruction),
}
