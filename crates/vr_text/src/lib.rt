//! Texts that people write and read: their lines and numbers, and what a refusal says.
#![tactic(auto)]

mod lines;
mod numerals;
mod refusals;
mod writer;

pub use lines::{cut_line, is_skipped};
pub use numerals::{is_numeral, read_id};
pub use refusals::write_refusal;
pub use writer::Writer;
