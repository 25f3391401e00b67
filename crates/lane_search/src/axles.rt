//! Groups of axles: where each goes furthest, and which of them does.
ghost use Rattle.std.specs.Prelude.{◌≡◌, ◌+◌, ◌-◌, ◌*◌, ◌<◌, ◌≤◌, length, ℤ, pos, negsuc, ◌+ℤ◌, ◌*ℤ◌, ◌≤ℤ◌, unsigned_abs};
ghost use Rattle.keeper.specs.Worst.{Worst, Between};
ghost use Rattle.loads.specs.Decks.{Start};
ghost use Rattle.loads.specs.Loads.{weights, padded};
ghost use Rattle.lane_search.specs.Groups.{of_three, at_three, Limited, Computes, number, OfGroup, UpTo};
ghost use Rattle.lane_search.specs.Places.{Reaches, OfAxles};
ghost use Rattle.lane_search.specs.Readings.{line_read};

use crate::places::LanePlace;
use crate::samples::Sample;
use crate::weighed::times;
use keeper::keepers::Keeper;
use keeper::senses::Sense;
use loads::load_sets::{Group, LoadSet};
use traffic::effects::axle_weights;
use traffic::records::{Code, Sign};

// An axle's weight times the ordinate under it. That an ordinate is no larger stays a clause: a type for it would be wrapped at each reading.
fn weighed(weight: u16, y: i64) -> i64
    requires light { weight ≤ 200 }
    requires small { unsigned_abs y ≤ 1000000 }
    ensures value { result ≡ pos weight *ℤ y }
    ensures small { unsigned_abs result ≤ 200000000 }
{
    times(weight as u32, y)
}

// The axles of a group as three weights, with 0 for an axle that it has not, and how far each stands from the next.
#[derive(Clone, Copy)]
struct Axles {
    spacing: u16,
    weights: (u16, u16, u16),
    ghost close: { spacing ≤ 2000 },
    ghost light: { Limited weights },
}

impl Axles {
    // The axles of a group of a load set.
    fn of(set: &LoadSet, group: Group) -> Axles
        ensures spacing { result.spacing ≡ set.now.loads.spacing }
        ensures weights { result.weights ≡ padded (weights set.now.loads group) }
    {
        Axles {
            spacing: set.loads.spacing,
            weights: axle_weights(set, group),
        }
    }

    // The weights times the ordinates y, u and v.
    fn weigh(self, y: i64, u: i64, v: i64) -> i64
        requires first { unsigned_abs y ≤ 1000000 }
        requires second { unsigned_abs u ≤ 1000000 }
        requires third { unsigned_abs v ≤ 1000000 }
        ensures { result ≡ of_three self.weights y u v }
    {
        weighed(self.weights.0, y) + (weighed(self.weights.1, u) + weighed(self.weights.2, v))
    }

    // The weights times the ordinates under them, the first axle at a.
    fn at(self, sample: &Sample, a: i64) -> i64
        requires { Start a }
        ensures { result ≡ at_three (line_read sample.now) self.spacing self.weights a }
    {
        let d = self.spacing as i64;
        self.weigh(sample.at(a), sample.at(a + d), sample.at(a + d + d))
    }

    // The same where all three stand on the line, which needs no tests: with them at each start a whole search takes a fifth longer.
    fn on(self, sample: &Sample, a: i64) -> i64
        requires from { pos 0 ≤ℤ a }
        requires to { (a +ℤ pos self.spacing +ℤ pos self.spacing) ≤ℤ pos sample.now.length }
        ensures { result ≡ at_three (line_read sample.now) self.spacing self.weights a }
    {
        let x = a as usize;
        let d = self.spacing as usize;
        self.weigh(sample.on(x), sample.on(x + d), sample.on(x + d + d))
    }
}

// Offers the starts from `from` on, as far as `to`. Whatever effect the calls return, the furthest start before `from` becomes the furthest before `to`.
fn offer_starts<S: Sense, F: Fn(i64) -> i64>(
    before: Keeper<S, i64>,
    effect: F,
    from: i64,
    to: i64,
) -> Keeper<S, i64>
    requires far { negsuc 15999 ≤ℤ from }
    requires upward { from ≤ℤ to }
    requires callable { (a : ℤ) → Between from to a → F.pre effect a }
    ensures { (f : ℤ → ℤ) → Computes (F.post effect) from to f
        → Worst S.beyond f (Between (negsuc 15999) from) before.sum before.place
        → Worst S.beyond f (Between (negsuc 15999) to) result.sum result.place }
{
    let mut best = before;
    for start in from..to {
        best.offer(effect(start), start);
    }
    best
}

// The start at which three axles go furthest. Where none of them stands on the line, they go as far as at -16,000.
fn furthest_start<S: Sense>(sample: &Sample, axles: Axles) -> Keeper<S, i64>
    ensures { Worst S.beyond (at_three (line_read sample.now) axles.spacing axles.weights) Start result.sum result.place }
{
    let length = 2 * axles.spacing as usize;
    let end = sample.end();
    let inner = end.saturating_sub(length) as i64;
    let first = Keeper::new(axles.at(sample, -16_000), -16_000);
    let best = offer_starts(first, |a| axles.at(sample, a), -(length as i64), 0);
    let best = offer_starts(best, |a| axles.on(sample, a), 0, inner);
    offer_starts(best, |a| axles.at(sample, a), inner, end as i64)
}

// The sample and the set stay two parameters, as in the call: no fact ties them, and of a struct of both each clause would name longer paths.
// Of the starts of one group, the one whose effect goes furthest.
fn of_group<S: Sense>(sample: &Sample, set: &LoadSet, group: Group) -> Keeper<S, LanePlace>
    ensures { Reaches S.beyond (line_read sample.now) set.now.loads (OfGroup group) result.sum result.place }
{
    let best = furthest_start::<S>(sample, Axles::of(set, group));
    let place = LanePlace {
        code: Code::Axles(group),
        a: best.place as i32,
        z: 0,
        sign: Sign::None,
    };
    Keeper::new(224_000 * best.sum, place)
}

// Offers a group to the best of those before it.
fn offer_group<S: Sense>(
    best: &mut Keeper<S, LanePlace>,
    sample: &Sample,
    set: &LoadSet,
    group: Group,
)
    requires before { Reaches S.beyond (line_read sample.now) set.now.loads (UpTo (number group - 1)) best.old.sum best.old.place }
    ensures { Reaches S.beyond (line_read sample.now) set.now.loads (UpTo (number group)) best.new.sum best.new.place }
{
    let other = of_group::<S>(sample, set, group);
    best.offer(other.sum, other.place);
}

// Of all groups of axles at all starts, the one whose effect goes furthest.
pub(crate) fn furthest_axles<S: Sense>(sample: &Sample, set: &LoadSet) -> Keeper<S, LanePlace>
    ensures { Reaches S.beyond (line_read sample.now) set.now.loads OfAxles result.sum result.place }
{
    let mut best = of_group::<S>(sample, set, Group::Single);
    for group in [
        Group::Bogie12,
        Group::Bogie21,
        Group::Triple211,
        Group::Triple121,
        Group::Triple112,
    ] {
        offer_group(&mut best, sample, set, group);
    }
    best
}
