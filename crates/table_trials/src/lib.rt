//! Examples for the check of routine tables: each of the fifteen causes at the first place where it
//! can stand and at a later one, and tables at the edge of what is accepted.
#![tactic(auto)]

#[cfg(test)]
mod tests;
