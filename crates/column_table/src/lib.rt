//! The rows of one collection, in chunks of neighbours.
#![tactic(auto)]

mod chunk;
mod fault;
mod rows_after;
mod table;

pub use fault::TableFault;
pub use rows_after::RowsAfter;
pub use table::Table;

#[cfg(test)]
mod tests;
