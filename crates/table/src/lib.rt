//! Routine tables as bytes, decoded and checked. `check` makes a `Table` of bytes that hold a
//! well-formed table, and refuses all others by the layer, the cause and the place of what is wrong:
//! layer 1 reads records, layer 2 sees that they make blocks, layer 3 that their names fit together.
//! A `Table` is never anything but well formed, and lies in memory of a fixed size.
#![tactic(auto)]

mod blocks;
mod decoding;
mod entries;
pub mod entry_point;
mod fault;
mod index;
mod lookup;
mod names;
mod records;
mod table;
mod variables;

pub use decoding::decode;
pub use entry_point::Main;
pub use fault::{BlockFault, Located, NameFault, RecordFault, TableFault};
pub use lookup::{Entry, find, first};
pub use records::MOST_RECORDS;
pub use table::{Table, check};
