//! Where a line of two joined families stands.

/// The family of the two that a line stands in, and its number there.
#[derive(Clone, Copy, Debug, PartialEq, Eq)]
pub(crate) enum Part {
    First(i32),
    Second(i32),
}
