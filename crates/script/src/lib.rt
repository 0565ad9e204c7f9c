//! The text format of an event script, and of what is printed for it.
//!
//! A script is a row of lines, each a row of words that blanks part. A blank is a space, a tab or a
//! carriage return. A line without words, or whose first word begins with `#`, is passed over.
//!
//! | line | asks for | is answered by |
//! |---|---|---|
//! | `bench KIND KIND c0 … c7` | two benches, each `site` or `log`, with eight counts | `ok` or `refused N` |
//! | `turn z` | both benches turned by a shift | `ok` or `refused N` |
//! | `load HEX` | a table checked, pairs of hexadecimal digits or `-` | `ok` or `refused LAYER CAUSE PLACE` |
//! | `jog o y` | one request, operation and number | `number N` or `fault N` |
//! | `state` | the state | `state SITE ANGLE NOZZLE counts c0 … c7 bin N sites S:F:A …` |
//!
//! A bench line begins a section. A turn line stands right after it or not at all, and a state line
//! ends the section. Numbers are signed, of 32 bits, in base ten. The nozzle is a feeder, or `-`; a
//! site that is taken is written with its feeder and angle, and `none` stands where no site is.
//! Where two benches answer differently, `DIFFER first | second` is printed.
#![tactic(auto)]

pub mod answer;
pub mod expected;
mod field;
mod form;
mod hex;
mod keyword;
pub mod kind;
pub mod line;
mod number;
mod outcome;
pub mod pairing;
pub mod position;
mod reading;
mod state;
mod words;

pub use answer::{Answer, pair_text};
pub use expected::Expected;
pub use kind::Kind;
pub use line::Line;
pub use pairing::Pairing;
pub use position::Position;
