//! The use classes.

/// A use class. None, the class number 0, is no case of it.
#[derive(Clone, Copy, Debug, PartialEq, Eq)]
pub enum Class {
    Bk6,
    Bk8,
    BkT8,
    Bk10,
}
