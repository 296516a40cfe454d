//! Updates of documents: what an update says, its first fault, and what it makes of a document.
#![tactic(auto)]

// what an update is
mod copies;
mod fault;
mod operator;
mod update;

// reading: operands, paths that overlap
mod by_parts;
mod operand;
mod overlaps;
mod reading;

// applying: what each operator makes, whole documents
mod applying;
mod compare;
mod draft;
mod fresh;
mod inserting;
mod lists;
mod making;
mod replacing;

// laws and worked rows
mod laws;
mod rows;

pub use fault::UpdateFault;
pub use inserting::{Equality, upsert_replacement};
pub use laws::{
    ids_are_kept, increments_are_undone, sets_are_seen, steady_updates_settle, twice_is_once,
    unsets_are_seen,
};
pub use operator::Operator;
pub use replacing::{is_replacement, replaced};
pub use rows::{documents_are_made, operators_work, paths_conflict};
pub use update::{Applied, Clause, Effect, Updates};

#[cfg(test)]
mod insert_tests;
#[cfg(test)]
mod tables;
#[cfg(test)]
mod tests;
