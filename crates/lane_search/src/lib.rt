//! The load of a lane whose effect goes furthest, over every code, every start, every place of A and every set of cells.
#![tactic(auto)]

mod axles;
mod block_loads;
mod blocks;
mod lane_loads;
pub mod places;
pub mod reaches;
pub mod samples;
mod total;
mod totals;
mod weighed;
mod windows;
mod work;
