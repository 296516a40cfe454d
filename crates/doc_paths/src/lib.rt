//! Paths in JSON values.
#![tactic(auto)]

mod at;
mod fault;
mod laws;
mod name;
mod part;
mod path;
mod put;
mod take;

pub use fault::{NameFault, PathFault};
pub use laws::{indexes_are_decimal, parts_tell_paths, puts_are_seen, takes_are_seen};
pub use name::{CollName, is_collection_name};
pub use path::Path;

#[cfg(test)]
mod tests;
