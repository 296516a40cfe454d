//! Filters of documents, as trees.
#![tactic(auto)]

mod copying;
mod equalities;
mod fault;
mod filter;
mod laws;
mod matching;
mod operator;
mod reading;
mod rows;

pub use equalities::Equality;
pub use fault::FilterFault;
pub use filter::{Filter, Filters, Test};
pub use laws::{
    contraries, equalities_hold, filters_are_ready, members_all_hold, operators_all_hold,
};
pub use rows::{faults_are_told, filters_find};

#[cfg(test)]
mod tests;
