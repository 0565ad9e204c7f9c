//! The lowest name cause at one record, by the entries of the table's headings.

ghost use Rattle.std.specs.Prelude.{◌≡◌, ℕ, None, Decides};
ghost use Rattle.few.specs.Held.{held};
ghost use Rattle.language.specs.Causes.{Any};
ghost use Rattle.language.specs.Forms.{named_labels};
ghost use Rattle.language.specs.declared.record.Record.TheVariants.{Block, Body};
ghost use Rattle.table.specs.Entries.{routine_at_of, block_at};
ghost use Rattle.table.specs.Names.{Earlier, Flawed, Miscalled};

use super::super::variables::is_outside;
use super::Index;
use language::{Handler, Instruction, NameCause, Record};
use scopes::Scope;

impl Index {
    /// The lowest cause at one record.
    pub fn flaw(&self, scope: Scope, place: usize, at: Record) -> Option<NameCause>
        ensures { Flawed (held self.now.routines) (held self.now.blocks) scope place at result }
    {
        match at {
            Record::Routine { identifier, .. } if self.repeats_routine(identifier, place) => {
                Some(NameCause::RepeatedRoutine)
            }
            Record::Routine { .. } => None,
            Record::Block { label, handler } => self.block_flaw(scope, place, label, handler),
            Record::Body(i) => self.body_flaw(scope, i),
        }
    }

    /// The lowest cause at a block's heading.
    fn block_flaw(
        &self,
        scope: Scope,
        place: usize,
        label: u8,
        handler: Option<Handler>,
    ) -> Option<NameCause>
        ensures { Flawed (held self.now.routines) (held self.now.blocks) scope place (Block label handler) result }
    {
        if self.repeats_block(scope.routine, label, place) {
            return Some(NameCause::RepeatedBlock);
        }
        let taken = handler?;
        if u16::from(taken.catch) >= scope.variables {
            return Some(NameCause::NoVariable);
        }
        if self.lacks(scope.routine, taken.label) {
            return Some(NameCause::NoBlock);
        }
        None
    }

    /// The lowest cause at an instruction.
    fn body_flaw(&self, scope: Scope, i: Instruction) -> Option<NameCause>
        ensures { (place : ℕ) → Flawed (held self.now.routines) (held self.now.blocks) scope place (Body i) result }
    {
        if is_outside(scope.variables, i) {
            return Some(NameCause::NoVariable);
        }
        if self.goes_astray(scope.routine, i) {
            return Some(NameCause::NoBlock);
        }
        match i {
            Instruction::Call { routine, count, .. } => self.miscalled(routine, count),
            _ => None,
        }
    }

    /// What is wrong with a call: that the routine is absent, and only then that its arguments are not
    /// as many as it takes.
    fn miscalled(&self, routine: u8, count: u8) -> Option<NameCause>
        ensures { Miscalled (held self.now.routines) routine count result }
    {
        match self.routine(routine) {
            None => Some(NameCause::NoRoutine),
            Some(entry) if entry.parameters != count => Some(NameCause::ArgumentCount),
            Some(_) => None,
        }
    }

    /// Whether the instruction may go to a label that the routine lacks.
    fn goes_astray(&self, routine: u8, i: Instruction) -> bool
        ensures { Decides result (Any (λ l. block_at (held self.now.blocks) routine l ≡ None) (named_labels i)) }
    {
        match i {
            Instruction::Goto { label } => self.lacks(routine, label),
            Instruction::Branch {
                then,
                otherwise,
                ..
            } => { self.lacks(routine, then) || self.lacks(routine, otherwise) }
            _ => false,
        }
    }

    /// Whether an earlier routine has the identifier.
    fn repeats_routine(&self, identifier: u8, place: usize) -> bool
        ensures { Decides result (Earlier (routine_at_of (held self.now.routines) identifier) place) }
    {
        self.routine(identifier)
            .is_some_and(|entry| entry.place < place)
    }

    /// Whether an earlier block of the routine has the label.
    fn repeats_block(&self, routine: u8, label: u8, place: usize) -> bool
        ensures { Decides result (Earlier (block_at (held self.now.blocks) routine label) place) }
    {
        self.block(routine, label)
            .is_some_and(|entry| entry.place < place)
    }

    /// Whether the routine has no block with the label.
    fn lacks(&self, routine: u8, label: u8) -> bool
        ensures { Decides result (block_at (held self.now.blocks) routine label ≡ None) }
    {
        self.block(routine, label).is_none()
    }
}
