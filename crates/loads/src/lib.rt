//! Loads of the classes, lanes, shares, and when a traffic sum overloads a member.
#![tactic(auto)]

pub mod carriageways;
pub mod classes;
pub mod decks;
pub mod lane_widths;
pub mod load_sets;
pub mod overloads;
pub mod permits;
pub mod shares;
pub mod sharing;
pub mod strengths;
pub mod tables;
pub mod widths;
