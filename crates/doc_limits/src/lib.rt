//! The limits of documents: how large a value may be, and which names its members may have.
#![tactic(auto)]

mod counts;
mod limits;
mod names;

pub use limits::{Broken, check};
pub use names::names_fault;

#[cfg(test)]
mod tests;
