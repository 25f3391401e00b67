//! Heads and rows, as they are given.

/// The head of a line that is given by ordinates at stations of equal steps.
#[derive(Clone, Copy, Debug, PartialEq, Eq)]
pub struct StationHead {
    pub step: i32,
    pub stations: u32,
}

/// The head of a line that is given by runs.
#[derive(Clone, Copy, Debug, PartialEq, Eq)]
pub struct RunHead {
    pub scale: i32,
    pub runs: u32,
}

/// A run: a stretch of the line on which the ordinate grows by the same rise at each millimetre.
#[derive(Clone, Copy, Debug, PartialEq, Eq)]
pub struct Run {
    pub length: i32,
    pub rise: i32,
}
