//! An arrangement as a caller gives it or is given it.
use loads::load_sets::Group;

/// What a lane carries, by its load code.
#[derive(Clone, Copy, Debug, PartialEq, Eq)]
pub enum Code {
    /// Code 0: p alone.
    Light,
    /// Codes 1 to 6.
    Axles(Group),
    /// Code 7.
    Vehicle,
    /// Code 8.
    Train,
}

/// Which allowed cells p fills: none, those with a double area above 0, or those below 0.
// Three signs with numbers of their own, 0, 1 and -1, so `None` is one of them, and an `Option` of two is no plainer.
#[derive(Clone, Copy, Debug, PartialEq, Eq)]
pub enum Sign {
    None,
    Above,
    Below,
}

/// A lane: where it lies, and what it carries. A field that its code does not use is 0.
// Each code has all the fields, since a caller may fill any of them: whether the unused are 0 is a question of `legal`.
#[derive(Clone, Copy, Debug, PartialEq, Eq)]
pub struct LaneRecord {
    /// The lane's centre, in dm from the left edge of the clear width.
    pub centre: i32,
    pub code: Code,
    /// The first axle or the start of the block, in mm.
    pub a: i32,
    /// The place of A, in mm.
    pub z: i32,
    pub sign: Sign,
}

impl LaneRecord {
    /// What stands past the lanes of an arrangement.
    pub const BLANK: LaneRecord = LaneRecord {
        centre: 0,
        code: Code::Light,
        a: 0,
        z: 0,
        sign: Sign::None,
    };
}

/// The lanes of an arrangement from left to right: the first `count` of six.
// A fixed array with a count, since nothing allocates; a caller may give any count, which `legal` judges.
#[derive(Clone, Copy, Debug, PartialEq, Eq)]
pub struct Record {
    pub count: u8,
    pub lanes: [LaneRecord; 6],
}

impl Record {
    /// The arrangement without lanes.
    pub const EMPTY: Record = Record {
        count: 0,
        lanes: [LaneRecord::BLANK; 6],
    };
}
