//! What a bench is: its state, the requests it takes, the rules by which it answers them, and the
//! trait that every bench implements. Code above this crate knows a bench by these rules alone.
#![tactic(auto)]

pub mod action;
pub mod below;
pub mod bench;
pub mod fault;
pub mod laws;
pub mod part;
pub mod refusal;
pub mod request;
pub mod spot;
pub mod state;

pub use action::Action;
pub use below::Below;
pub use below::angle::{Angle, FULL_TURN};
pub use below::feeder::Feeder;
pub use below::site::Site;
pub use bench::Bench;
pub use fault::Fault;
pub use part::Part;
pub use refusal::{SetUpRefusal, ShiftRefusal};
pub use request::Request;
pub use spot::Spot;
pub use state::State;
