//! The layout of lanes across a carriageway whose sum goes furthest.
#![tactic(auto)]

pub mod layout_search;
pub mod layouts;
mod slots;
pub mod worths;
