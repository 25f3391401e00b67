//! Influence lines, families of them, and the areas under them.
#![tactic(auto)]

pub mod areas;
pub mod family;
pub mod influence_lines;
pub mod joins;
pub mod lent;
pub mod numbered;
mod parts;
