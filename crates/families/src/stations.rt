//! The family of lines that are given by stations.

use crate::drafted_lines::DraftedLines;
use crate::rows::StationHead;

/// Lines that are given by ordinates at stations.
pub type Stations<'a> = DraftedLines<'a, StationHead>;
