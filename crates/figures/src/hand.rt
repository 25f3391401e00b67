//! The figures that were worked out by hand.
ghost use Rattle.std.specs.Prelude.{◌≤◌, length};

use loads::load_sets::Group;
use std::fmt;
use traffic::records::{Code, LaneRecord, Record, Sign};

/// What a hand found of an arrangement of Bk 10 at share 100.
#[derive(Clone, Copy, Debug, PartialEq, Eq)]
pub enum Found {
    Sum(i64),
    Legal,
    Illegal,
}

/// A carriageway, an arrangement on it, and what a hand found.
#[derive(Clone, Copy, Debug, PartialEq, Eq)]
pub struct Figure {
    pub width: i32,
    pub left: bool,
    pub right: bool,
    pub given: Record,
    pub found: Found,
}

/// A lane as it is printed.
#[derive(Clone, Copy)]
pub struct Shown<'a>(pub &'a LaneRecord);

impl<'a> fmt::Display for Shown<'a> {
    fn fmt<W: fmt::Write>(&self, f: &mut fmt::Formatter<W>) -> fmt::Result {
        let lane = self.0;
        let code = u8::from(lane.code);
        let sign = i8::from(lane.sign);
        write!(
            f,
            "[centre {} code {code} a {} z {} p {sign}]",
            lane.centre, lane.a, lane.z
        )
    }
}

/// The carriageway; each lane is printed by itself.
impl fmt::Display for Figure {
    fn fmt<W: fmt::Write>(&self, f: &mut fmt::Formatter<W>) -> fmt::Result {
        write!(f, "W {} raised {} {}:", self.width, self.left, self.right)
    }
}

// The record of these lanes.
fn record_of(given: &[LaneRecord]) -> Record
    requires { length given.now ≤ 6 }
{
    let mut lanes = Record::EMPTY.lanes;
    lanes[..given.len()].copy_from_slice(given);
    Record {
        count: given.len() as u8,
        lanes,
    }
}

// One lane with centre 15 on a carriageway of 30.
fn alone(code: Code, a: i32, z: i32, sign: Sign, found: Found) -> Figure {
    let lane = LaneRecord {
        centre: 15,
        code,
        a,
        z,
        sign,
    };
    Figure {
        width: 30,
        left: false,
        right: false,
        given: record_of(&[lane]),
        found,
    }
}

// A lane whose load begins at 0, without p.
fn plain(centre: i32, code: Code) -> LaneRecord {
    LaneRecord {
        centre,
        code,
        ..LaneRecord::BLANK
    }
}

// A heavy lane with centre 13, and a lane beside it.
fn pair(width: i32, right: bool, centre: i32, code: Code, found: Found) -> Figure {
    let heavy = plain(13, Code::Axles(Group::Single));
    Figure {
        width,
        left: true,
        right,
        given: record_of(&[heavy, plain(centre, code)]),
        found,
    }
}

// A light lane with centre 9 on a carriageway of 30, with the left edge raised or not.
fn light_at_nine(left: bool) -> Figure {
    Figure {
        width: 30,
        left,
        right: false,
        given: record_of(&[plain(9, Code::Light)]),
        found: Found::Illegal,
    }
}

pub(crate) fn figures() -> [Figure; 13] {
    let single = Code::Axles(Group::Single);
    [
        alone(single, 2, 0, Sign::None, Found::Sum(7_168_000_000)),
        alone(
            Code::Axles(Group::Bogie12),
            -1_298,
            0,
            Sign::None,
            Found::Sum(7_168_000_000),
        ),
        alone(Code::Vehicle, 0, 2, Sign::None, Found::Sum(1_795_840_000)),
        alone(
            Code::Vehicle,
            -6_998,
            2,
            Sign::None,
            Found::Sum(1_793_920_000),
        ),
        alone(Code::Train, 2, 2, Sign::Above, Found::Sum(1_793_668_800)),
        alone(Code::Light, 0, 0, Sign::Above, Found::Sum(537_600)),
        alone(Code::Light, 0, 0, Sign::Below, Found::Sum(0)),
        alone(Code::Vehicle, 0, 7_001, Sign::None, Found::Illegal),
        pair(56, true, 43, single, Found::Legal),
        pair(55, true, 43, single, Found::Illegal),
        pair(48, false, 38, Code::Light, Found::Legal),
        light_at_nine(false),
        light_at_nine(true),
    ]
}
