//! The fixed tables of names: commands, operators of filters and updates, and codes of errors.
//! Each is a list of rows that differ; a name is looked up by its row, and a row by its name.
//! Nothing here takes memory.
#![tactic(auto)]

mod code;
mod names;
mod tables;

pub use code::Code;
pub use names::Names;
pub use tables::{codes, commands, filter_ops, update_ops};

#[cfg(test)]
mod tests;
