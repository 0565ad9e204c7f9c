//! What a record stands under in its table.
#![tactic(auto)]

pub mod scope;

pub use scope::Scope;
