use super::operation::Operation;

/// A word of continuation form, which has an address of its own. One that opens a beat is written with
/// a capital letter; the small letter of an operation does as its capital.
// a flag and no enum of two cases: every word has an operation, whichever letter it is written with
#[derive(Clone, Copy, PartialEq, Eq, Debug)]
pub struct Word {
    pub opens: bool,
    pub operation: Operation,
}
