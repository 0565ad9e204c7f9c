ghost use Rattle.std.specs.Prelude.{◌≡◌, ◌<◌, length};
ghost use Rattle.continuation.specs.Programs.{records_in};
ghost use Rattle.language.specs.Code.{code};
ghost use Rattle.language.specs.CodeWords.{WordAt};
ghost use Rattle.language.specs.Translation.{translation};
ghost use Rattle.translation.specs.Addressing.{EntryAddress};

use super::super::decoding::decode;
use super::Program;
use language::Word;
use table::Table;
use translation::{MOST_BYTES, entry_address, translate_table};

impl Program {
    /// Makes a table ready to run: translates it.
    pub fn new(table: Table) -> Program
        ensures { result.table ≡ table }
    {
        let mut code = [0; MOST_BYTES];
        translate_table(&table, &mut code).unwrap();
        let entry = entry_address(&table);
        Program { table, code, entry }
    }

    /// The address at which a run starts.
    pub fn entry(&self) -> u16
        ensures { EntryAddress (records_in self.now) result }
    {
        self.entry
    }

    /// The word at an address.
    pub fn word(&self, at: u16) -> Word
        requires { at < length (translation (records_in self.now)) }
        ensures { WordAt (code (records_in self.now)) at result }
    {
        let (words, _) = self.code.as_chunks::<8>();
        decode(words[usize::from(at)]).unwrap()
    }
}
