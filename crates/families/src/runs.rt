//! The family of lines that are given by runs.

use crate::drafted_lines::DraftedLines;
use crate::rows::RunHead;

/// Lines that are given by runs.
pub type Runs<'a> = DraftedLines<'a, RunHead>;
