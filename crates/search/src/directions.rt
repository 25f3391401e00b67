//! The two directions of a search.

/// The sense of a search as a value.
#[derive(Clone, Copy, Debug, PartialEq, Eq)]
pub enum Direction {
    /// The larger sum goes further.
    Up,
    /// The smaller sum goes further.
    Down,
}
