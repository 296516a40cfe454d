//! Commands: what a request asks for, or the first refusal that the request alone shows.
#![tactic(auto)]

mod checks;
mod command;
mod contents;
mod documents;
mod fault;
mod fields;
mod filters;
mod kind;
mod laws;
mod making;
mod members;
mod name;
mod numbers;
mod paging;
mod parts;
mod reading;
mod row;
mod stand_in;
mod updates;
mod views;

pub use command::Command;
pub use fault::CommandFault;
pub use laws::{answers_are_one, documents_take_ids};
pub use reading::{read_command, read_request, take_command};
pub use updates::update_error;

#[cfg(test)]
mod tests;
