//! Checked tables translated to continuation form, in bytes. `translate` is what a program in C calls, by
//! the static library `translation_c`.
#![tactic(auto)]

mod addresses;
mod encoding;
mod fault;
mod laws;
mod layout;
mod translating;

pub use encoding::encode;
pub use fault::{ShortBuffer, TranslationFault};
pub use laws::one_answer_fits;
pub use layout::entry_address;
pub use translating::{MOST_BYTES, translate, translate_bytes, translate_table};
