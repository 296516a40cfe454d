//! Sessions: requests that come as lines, served in order on one store.
#![tactic(auto)]

mod bytes;
mod laws;
mod lines;
mod one;
mod request;
mod run;
mod serve;

pub use laws::an_input_has_one_list_of_lines;
pub use run::RunHow;
pub use serve::{RunEnd, run_lines};

#[cfg(test)]
mod tests;
