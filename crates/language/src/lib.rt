//! The language of routine tables: its records and instructions, when a table is well formed, and
//! why one is refused. What a reader has to believe stands in specs/; the theorems about it are
//! named by the contracts of `theorems`. Beside them there are only numbers: of causes,
//! refusals and progress, and of beats asked for.
#![tactic(auto)]

pub mod agreement;
pub mod beats;
pub mod cause;
pub mod continuation;
pub mod count;
pub mod direct;
pub mod ending;
pub mod handler;
pub mod instruction;
pub mod operation;
pub mod progress;
pub mod record;
pub mod refusal;
pub mod steps;
pub mod theorems;
pub mod translation;
pub mod word;
pub mod worked;

pub use cause::{BlockCause, NameCause, RecordCause};
pub use count::beats_asked;
pub use ending::Ending;
pub use handler::Handler;
pub use instruction::Instruction;
pub use operation::Operation;
pub use progress::Progress;
pub use record::Record;
pub use refusal::{GoRefusal, StartRefusal};
pub use word::Word;
