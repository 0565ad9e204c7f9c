ghost use Rattle.std.specs.Prelude.{◌≡◌};
ghost use Rattle.language.specs.Translation.{jumps as jumps_of, size as size_in_words};
ghost use Rattle.language.specs.WellFormed.{WellFormed};
ghost use Rattle.translation.specs.Addressing.{Addressed};

use few::Few;
use language::{Handler, Instruction, Record};
use scopes::Scope;
use table::MOST_RECORDS;

/// Where the words of each record begin, and how many words there are in all.
#[derive(Drop)]
pub struct Addresses {
    pub of: Few<u16, MOST_RECORDS>,
    pub words: u16,
}

/// The addresses of a table's records.
pub fn find_addresses(records: &[Record]) -> Addresses
    requires { WellFormed records.now }
    ensures { Addressed records.now result }
{
    let mut of = Few::new(0);
    let mut words = 0;
    let mut scope = Scope::nowhere();
    for next in records {
        scope = scope.at(*next);
        of.push(words).unwrap();
        words += size(scope.handler, *next);
    }
    Addresses { of, words }
}

/// How many words a record becomes under a handler.
fn size(handler: Option<Handler>, of: Record) -> u16
    ensures { result ≡ size_in_words handler «of» }
{
    match of {
        Record::Routine { locals, .. } => u16::from(locals),
        Record::Block { .. } => 0,
        Record::Body(i) => match i {
            Instruction::Request { .. } => 2,
            Instruction::Call { .. } => 2 + jumps(handler),
            Instruction::Branch { .. } => 3,
            Instruction::Raise { .. } => 1 + jumps(handler),
            _ => 1,
        },
    }
}

/// One word more where there is a handler to jump to.
fn jumps(handler: Option<Handler>) -> u16
    ensures { result ≡ jumps_of handler }
{
    u16::from(handler.is_some())
}
