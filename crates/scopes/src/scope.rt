ghost use Rattle.std.specs.Prelude.{◌≡◌};
ghost use Rattle.scopes.specs.Scopes.{nowhere, scope_at};

use language::{Handler, Record};

/// What a record stands under: its routine, how many variables that routine has, and the handler of
/// its block.
// walked with by each loop that needs it: as `scan` the two lines would be a closure that changes what it holds
#[derive(Clone, Copy)]
pub struct Scope {
    pub routine: u8,
    pub variables: u16,
    pub handler: Option<Handler>,
}

impl Scope {
    /// Before the first record.
    pub fn nowhere() -> Scope
        ensures { result ≡ nowhere }
    {
        Scope {
            routine: 0,
            variables: 0,
            handler: None,
        }
    }

    /// That of the record that comes next; a heading stands under what it opens.
    pub fn at(self, next: Record) -> Scope
        ensures { result ≡ scope_at self next }
    {
        match next {
            Record::Routine {
                identifier,
                parameters,
                locals,
            } => Scope {
                routine: identifier,
                variables: u16::from(parameters) + u16::from(locals),
                handler: None,
            },
            Record::Block { handler, .. } => Scope {
                routine: self.routine,
                variables: self.variables,
                handler,
            },
            Record::Body(_) => self,
        }
    }
}
