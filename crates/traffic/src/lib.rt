//! Arrangements as a caller gives them: whether they are legal, and their traffic sum.
#![tactic(auto)]

mod cells;
pub mod codes;
pub mod effects;
pub mod figures;
pub mod legal;
pub mod records;
pub mod sums;
