//! Where a jump or a call goes: the table looks the heading up, and its address is known.

ghost use Rattle.std.specs.Prelude.{◌≡◌, ◌*◌, ◌<◌, length, IfSome};
ghost use Rattle.language.specs.Translation.{found_address, block_address_of, routine_address_of, translation};
ghost use Rattle.table.specs.Checked.{records_of};
ghost use Rattle.translation.specs.Addressing.{EntryAddress};
ghost use Rattle.translation.specs.Layouts.{laid_out};

use super::super::addresses::find_addresses;
use super::Layout;
use table::Table;

impl<'a> Layout<'a> {
    /// That of a table.
    pub fn of(table: &'a Table) -> Layout<'a>
        ensures { laid_out result ≡ records_of table.now }
    {
        let addresses = find_addresses(table.records());
        Layout { table, addresses }
    }

    /// How many bytes the translation has.
    pub fn bytes(&self) -> usize
        ensures { result ≡ 8 * length (translation (laid_out self.now)) }
    {
        8 * usize::from(self.addresses.words)
    }

    /// The address of a block of a routine.
    pub fn block(&self, routine: u8, label: u8) -> u16
        ensures { result ≡ block_address_of (laid_out self.now) routine label }
    {
        self.address(self.table.block(routine, label))
    }

    /// The address of a routine.
    pub fn routine(&self, identifier: u8) -> u16
        ensures { result ≡ routine_address_of (laid_out self.now) identifier }
    {
        self.address(self.table.routine(identifier))
    }

    /// The address of a heading that was looked up.
    fn address(&self, heading: Option<usize>) -> u16
        requires { IfSome heading (λ place. place < length (laid_out self.now)) }
        ensures { result ≡ found_address (laid_out self.now) heading }
    {
        let of = self.addresses.of.as_slice();
        heading.map_or(0, |place| of[place])
    }

    /// The address of routine 0's first instruction.
    fn entry(&self) -> u16
        ensures { EntryAddress (laid_out self.now) result }
    {
        self.addresses.of.as_slice()[self.table.main().place + 1]
    }
}

/// The address at which a run starts: that of routine 0's first instruction.
pub fn entry_address(table: &Table) -> u16
    ensures { EntryAddress (records_of table.now) result }
{
    Layout::of(table).entry()
}
