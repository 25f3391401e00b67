//! Places in a lane.
use traffic::records::{Code, Sign};

/// What a lane carries, and where: a lane of an arrangement's record without its centre.
// Each code has all the fields, as in the record that it becomes, where the unused are 0.
#[derive(Clone, Copy, Debug, PartialEq, Eq)]
pub struct LanePlace {
    pub code: Code,
    pub a: i32,
    pub z: i32,
    pub sign: Sign,
}
