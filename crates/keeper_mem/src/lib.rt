//! A keeper in memory, which tells its tables.
#![tactic(auto)]

mod maps;
mod mem;
mod rows;
mod scan;

pub use mem::MemKeeper;

#[cfg(test)]
mod tests;
