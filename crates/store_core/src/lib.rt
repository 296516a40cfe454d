//! The store: a keeper, and the journal of what was done with it.
#![tactic(auto)]

mod enter;
mod entry;
mod keep;
mod laws;
mod open;
mod outcome;
mod reads;
mod shapes;
mod store;
#[cfg(test)]
mod tests;
mod writes;

pub use entry::{Change, Entry};
pub use laws::{changes_follow, entries_tell_numbers, numbers_are_given_once, points_stay};
pub use open::OpenFault;
pub use outcome::{Listed, Looked, NoMemory, Paged, Shaped, WriteOutcome};
pub use store::Store;
