//! The plain figures of a carriageway.

/// The clear width in dm, and whether the edge on each side is raised.
#[derive(Clone, Copy, Debug, PartialEq, Eq)]
pub struct Deck {
    pub width: u8,
    pub left: bool,
    pub right: bool,
}
