//! The effect of a lane on a line.
ghost use Rattle.std.specs.Prelude.{◌≡◌, ℕ, ◌*◌, ◌<◌, ◌≤◌, Bool, pos, ◌+ℤ◌, ◌*ℤ◌, unsigned_abs};
ghost use Rattle.lines.specs.Lines.{ordinate_or_zero};
ghost use Rattle.loads.specs.Loads.{weights, padded, at_axles, spread_effect, axle_effect, lane_load_effect, lane_effect, axles, train};
ghost use Rattle.traffic.specs.Records.{lane_of, beside_train};
ghost use Rattle.traffic.specs.Sets.{Takes};

use crate::cells::{areas_of, is_filled, is_under};
use crate::records::{Code, LaneRecord, Sign};
use lines::areas::double_areas;
use lines::influence_lines::InfluenceLine;
use loads::load_sets::{Group, LoadSet, Spread};

// A weight times an ordinate or an area. The search of a lane has a twin: one for both would be a public call that asks a bound of its callers.
fn times(weight: u32, y: i64) -> i64
    requires { weight * unsigned_abs y ≤ 4000000000000000000 }
    ensures value { result ≡ pos weight *ℤ y }
    ensures small { unsigned_abs result ≡ weight * unsigned_abs y }
{
    weight as i64 * y
}

// V over its block from a on. The limits of a spread and of A stand in the load set's type: a `Spread` that kept them would ask more of whoever makes one. The sizes of answers stay clauses, each being of another value.
fn of_spread<L: InfluenceLine>(line: &L, spread: Spread, a: i32) -> i64
    requires long { 0 < spread.length }
    requires light { spread.weight ≤ 800 }
    ensures value { result ≡ spread_effect (L.line line.now) spread a }
    ensures small { unsigned_abs result ≤ 179200000000000 }
{
    let rate = 112_000 / spread.length as u32 * spread.weight as u32;
    times(rate, double_areas(line, a as i64, spread.length as u32))
}

// A at z.
fn of_extra<L: InfluenceLine>(line: &L, weight: u16, z: i32) -> i64
    requires { weight ≤ 50 }
    ensures value { result ≡ axle_effect (L.line line.now) weight z }
    ensures small { unsigned_abs result ≤ 11200000000000 }
{
    times(224_000 * weight as u32, line.ordinate(z as i64))
}

// p on the cells that a test takes.
fn of_lane_load<L: InfluenceLine, T: Fn(u32, i64) -> bool>(line: &L, weight: u16, takes: T) -> i64
    requires light { weight ≤ 6 }
    requires test { T.IsAlwaysCallable takes }
    ensures value { (set : ℕ → Bool) → Takes (L.line line.now) (T.post takes) set → result ≡ lane_load_effect (L.line line.now) weight set }
    ensures small { unsigned_abs result ≤ 134400000000000 }
{
    times(112 * weight as u32, areas_of(line, takes))
}

// An axle of a group: its weight times the ordinate.
fn of_axle<L: InfluenceLine>(line: &L, weight: u16, x: i64) -> i64
    requires { weight ≤ 200 }
    ensures value { result ≡ pos weight *ℤ ordinate_or_zero (L.line line.now) x }
    ensures small { unsigned_abs result ≤ 200000000 }
{
    times(weight as u32, line.ordinate(x))
}

/// The weights of a group's axles in a load set, with 0 for an axle that it has not.
pub fn axle_weights(set: &LoadSet, group: Group) -> (u16, u16, u16)
    ensures value { result ≡ padded (weights set.now.loads group) }
    ensures first { result.0 ≤ 200 }
    ensures second { result.1 ≤ 200 }
    ensures third { result.2 ≤ 200 }
{
    let loads = &set.loads;
    match group {
        Group::Single => (loads.single, 0, 0),
        Group::Bogie12 => (loads.bogie, loads.second, 0),
        Group::Bogie21 => (loads.second, loads.bogie, 0),
        Group::Triple211 => (loads.second, loads.triple, loads.triple),
        Group::Triple121 => (loads.triple, loads.second, loads.triple),
        Group::Triple112 => (loads.triple, loads.triple, loads.second),
    }
}

// The weights of a group times the ordinates at its axles, the first at a.
// Here and below the line, the set and what stands where stay parameters: of a struct of them each clause would name longer paths.
fn at_axles<L: InfluenceLine>(line: &L, set: &LoadSet, group: Group, a: i64) -> i64
    requires { unsigned_abs a ≤ 4294967296 }
    ensures value { result ≡ at_axles (L.line line.now) set.now.loads.spacing a (weights set.now.loads group) }
    ensures small { unsigned_abs result ≤ 600000000 }
{
    let (u, v, w) = axle_weights(set, group);
    let d = set.loads.spacing as i64;
    of_axle(line, u, a) + (of_axle(line, v, a + d) + of_axle(line, w, a + d + d))
}

fn of_axles<L: InfluenceLine>(line: &L, set: &LoadSet, group: Group, a: i32) -> i64
    ensures value { result ≡ lane_effect (L.line line.now) set.now.loads (axles group a) }
    ensures small { unsigned_abs result ≤ 330000000000000 }
{
    times(224_000, at_axles(line, set, group, a as i64))
}

// A vehicle or a train without its p: V over a block from a on, and A at z.
fn of_block<L: InfluenceLine>(line: &L, spread: Spread, extra: u16, a: i32, z: i32) -> i64
    requires long { 0 < spread.length }
    requires light { spread.weight ≤ 800 }
    requires extra { extra ≤ 50 }
    ensures value { result ≡ spread_effect (L.line line.now) spread a +ℤ axle_effect (L.line line.now) extra z }
    ensures small { unsigned_abs result ≤ 190400000000000 }
{
    of_spread(line, spread, a) + of_extra(line, extra, z)
}

fn of_train<L: InfluenceLine>(line: &L, set: &LoadSet, a: i32, z: i32, sign: Sign) -> i64
    ensures value { result ≡ lane_effect (L.line line.now) set.now.loads (train a z (beside_train (L.line line.now) set.now.loads.train.length sign a)) }
    ensures small { unsigned_abs result ≤ 330000000000000 }
{
    let length = set.loads.train.length;
    of_block(line, set.loads.train, set.loads.extra, a, z)
        + of_lane_load(line, set.loads.lane, |k, area| {
            !is_under(a, length, k) && is_filled(sign, area)
        })
}

/// The effect of what a lane of a record carries.
pub fn lane_effect<L: InfluenceLine>(line: &L, set: &LoadSet, lane: &LaneRecord) -> i64
    ensures value { result ≡ lane_effect (L.line line.now) set.now.loads (lane_of (L.line line.now) set.now.loads lane.now).load }
    ensures small { unsigned_abs result ≤ 330000000000000 }
{
    match lane.code {
        Code::Light => of_lane_load(line, set.loads.lane, |_, area| is_filled(lane.sign, area)),
        Code::Axles(group) => of_axles(line, set, group, lane.a),
        Code::Vehicle => of_block(line, set.loads.vehicle, set.loads.extra, lane.a, lane.z),
        Code::Train => of_train(line, set, lane.a, lane.z, lane.sign),
    }
}
