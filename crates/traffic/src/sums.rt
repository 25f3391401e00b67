//! The traffic sum of a record.
ghost use Rattle.std.specs.Prelude.{◌≡◌, ◌≤◌, map, length, ◌*ℤ◌, unsigned_abs};
ghost use Rattle.loads.specs.Shares.{listed};
ghost use Rattle.loads.specs.Sums.{shared, traffic_sum};
ghost use Rattle.traffic.specs.Records.{lane_of, Weighed};

use crate::effects::lane_effect;
use crate::legal::legal;
use crate::records::{LaneRecord, Record};
use lines::influence_lines::InfluenceLine;
use loads::carriageways::Carriageway;
use loads::load_sets::LoadSet;
use loads::shares::Shares;

// A share times an effect.
fn of_share(percent: i64, effect: i64) -> i64
    requires part { unsigned_abs percent ≤ 100 }
    requires small { unsigned_abs effect ≤ 330000000000000 }
    ensures value { result ≡ percent *ℤ effect }
    ensures small { unsigned_abs result ≤ 33000000000000000 }
{
    percent * effect
}

// Line, set and shares stay parameters, as in the call: of a struct of them each clause would name longer paths.
fn shared_effect<L: InfluenceLine>(
    line: &L,
    set: &LoadSet,
    shares: &Shares,
    lane: &LaneRecord,
) -> i64
    ensures value { result ≡ shared (L.line line.now) set.now.loads (listed shares.now) (lane_of (L.line line.now) set.now.loads lane.now) }
    ensures small { unsigned_abs result ≤ 33000000000000000 }
{
    of_share(shares.at(lane.centre), lane_effect(line, set, lane))
}

// A loop, since no chain's sum of signed numbers comes with its bounds.
fn sum_of<L: InfluenceLine>(line: &L, set: &LoadSet, shares: &Shares, lanes: &[LaneRecord]) -> i64
    requires { length lanes.now ≤ 6 }
    ensures { result ≡ traffic_sum (L.line line.now) set.now.loads (listed shares.now) (map (lane_of (L.line line.now) set.now.loads) lanes.now) }
{
    let mut sum = 0;
    for x in lanes {
        sum += shared_effect(line, set, shares, x);
    }
    sum
}

/// The traffic sum of a record; none where it is not in form or not legal.
pub fn traffic_sum<L: InfluenceLine>(
    line: &L,
    set: &LoadSet,
    carriageway: &Carriageway,
    shares: &Shares,
    given: &Record,
) -> Option<i64>
    ensures { Weighed set.now.loads carriageway.now.deck (L.line line.now) (listed shares.now) given.now result }
{
    if !legal(set, carriageway, given) {
        return None;
    }
    Some(sum_of(line, set, shares, &given.lanes[..given.count as usize]))
}
