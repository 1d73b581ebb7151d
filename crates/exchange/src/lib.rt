//! The words that every layer shares: faults, the bound on a ring's length, and what a host is.
#![tactic(auto)]

mod bound;
mod fault;
mod host;

pub use bound::Bound;
pub use fault::{Fault, Layer, Rule};
pub use host::{Host, count_wishes};
