//! The variables that an instruction names, against how many its routine has.

ghost use Rattle.std.specs.Prelude.{◌≤◌, take, Decides};
ghost use Rattle.language.specs.Causes.{Any};
ghost use Rattle.language.specs.Forms.{named_variables};

use language::Instruction;

/// Whether the instruction names a variable that is not below the limit.
pub fn is_outside(limit: u16, i: Instruction) -> bool
    ensures { Decides result (Any (λ v. limit ≤ v) (named_variables i)) }
{
    let beyond = |v: u8| u16::from(v) >= limit;
    match i {
        Instruction::Constant { x, .. } | Instruction::Return { x } | Instruction::Raise { x } => {
            beyond(x)
        }
        Instruction::Move { x, y }
        | Instruction::Request { x, y, .. }
        | Instruction::Branch { x, y, .. } => beyond(x) || beyond(y),
        Instruction::Difference { x, y, z } => beyond(x) || beyond(y) || beyond(z),
        Instruction::Call {
            x,
            count,
            arguments,
            ..
        } => beyond(x) || passes_outside(limit, count, arguments),
        Instruction::Goto { .. } => false,
    }
}

/// Whether an argument that is passed is not below the limit.
fn passes_outside(limit: u16, count: u8, arguments: [u8; 4]) -> bool
    ensures { Decides result (Any (λ v. limit ≤ v) (take count arguments)) }
{
    arguments
        .iter()
        .take(usize::from(count))
        .any(|v| u16::from(*v) >= limit)
}
