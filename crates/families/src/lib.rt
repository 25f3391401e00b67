//! Families of influence lines that are given by stations or by runs, each as a list of heads and a list of rows.
#![tactic(auto)]

mod check;
mod drafted_lines;
mod head;
mod ordinates;
pub mod questions;
pub mod rows;
mod run_head;
pub mod runs;
mod station_head;
pub mod stations;
