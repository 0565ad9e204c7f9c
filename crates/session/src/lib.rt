//! Events given to two benches side by side, and a section of an event script performed so: what each
//! bench answers, event by event.
#![tactic(auto)]

mod answering;
pub mod event;
pub mod exchange;
mod perform;
pub mod play;
pub mod section;

pub use event::Event;
pub use exchange::Exchange;
pub use play::play_both;
pub use section::Section;
