//! Tables of cases, run as tests.
#![tactic(auto)]

#[cfg(test)]
mod books;
#[cfg(test)]
mod bounds;
#[cfg(test)]
mod faults;
mod mistakes;
mod samples;
#[cfg(test)]
mod summaries;

pub use mistakes::mistakes_show;
pub use samples::changed;
