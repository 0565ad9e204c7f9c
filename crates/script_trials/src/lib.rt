//! The script format on examples: lines that read and lines that do not, their order, and the text
//! of answers.
#![tactic(auto)]

#[cfg(test)]
mod order;
#[cfg(test)]
mod reading;
#[cfg(test)]
mod writing;
