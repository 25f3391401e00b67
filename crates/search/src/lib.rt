//! The worst arrangement of loads across the deck: no legal one goes further.
#![tactic(auto)]

pub mod arrangements;
pub mod directions;
mod fillings;
