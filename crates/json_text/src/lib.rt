//! JSON texts.
#![tactic(auto)]

mod laws;
mod print;
mod read;
mod token;
mod units;

pub use laws::{numerals_are_written_so, strings_are_written_so};
pub use print::{canon, print_content, print_value, reads_back, text_len, texts_tell_values};
pub use read::{TextFault, no_fault_where_read, one_fault, one_value, read_value, reads_or_fails};

#[cfg(test)]
mod tests;
