//! The order of sums that a search goes by, and the keeper of the worst so far.
#![tactic(auto)]

pub mod keepers;
pub mod senses;
