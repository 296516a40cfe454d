//! Filters on columns.
#![tactic(auto)]

mod judge;
mod laws;
mod planning;
mod step;

pub use laws::{looks_are_of_open_conditions, nothing_is_open};
pub use planning::plan;
pub use step::{Plan, PlanFault, Verdict};

#[cfg(test)]
mod tests;
