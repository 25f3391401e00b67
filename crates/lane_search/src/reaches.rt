//! The furthest loads of a heavy and of a light lane.
ghost use Rattle.std.specs.Prelude.{◌≡◌, ◌≤◌, ⊤, true, false, unsigned_abs};
ghost use Rattle.lane_search.specs.Readings.{line_read};
ghost use Rattle.lane_search.specs.Places.{Kind, Reaches};

use crate::axles::furthest_axles;
use crate::lane_loads::{furthest_light, furthest_train, furthest_vehicle};
use crate::places::LanePlace;
use crate::samples::Sample;
use crate::total::Total;
use crate::totals::{Totals, add_up};
use crate::work::Work;
use keeper::keepers::Keeper;
use keeper::senses::Sense;
use loads::load_sets::LoadSet;
use std::alloc::AllocError;
use std::marker::PhantomData;

/// The place in a heavy and in a light lane whose effect goes furthest; neither effect is larger than one can be.
pub struct Reach<S> {
    pub heavy: Keeper<S, LanePlace>,
    pub light: Keeper<S, LanePlace>,
    ghost heavy_limit: { unsigned_abs heavy.sum ≤ 330000000000000 },
    ghost light_limit: { unsigned_abs light.sum ≤ 330000000000000 },
}

// By hand: neither `derive` nor `derive_where`, which were tried, takes `Clone` beside a ghost field of a type with a parameter.
impl<S> Copy for Reach<S> {}

impl<S> Clone for Reach<S> {
    ghost is_clone = { λ x y. y ≡ x };

    ghost is_infallible = { λ _. ⊤ };

    fn clone(&self) -> Result<Reach<S>, AllocError> {
        Ok(*self)
    }
}

// Of all loads of a heavy lane, the one whose effect goes furthest.
fn furthest_heavy<S: Sense>(totals: &Totals<'_, S>, set: &LoadSet) -> Keeper<S, LanePlace>
    ensures { Reaches S.beyond (line_read totals.now.sample.now) set.now.loads (Kind set.now.loads true) result.sum result.place }
{
    let mut work = Work {
        sums: [0; 100_001],
        tops: [0; 16_001],
    };
    let mut best: Keeper<S, LanePlace> = furthest_axles(totals.sample, set);
    let vehicle = furthest_vehicle(totals, set, &mut work);
    best.offer(vehicle.sum, vehicle.place);
    let train = furthest_train(totals, set, &mut work);
    best.offer(train.sum, train.place);
    best
}

/// Of all loads that may stand in a heavy lane, and of all sets of cells under p in a light one, those whose effects go furthest.
pub fn furthest_loads<S: Sense>(sample: &Sample, set: &LoadSet) -> Reach<S>
    ensures heavy { Reaches S.beyond (line_read sample.now) set.now.loads (Kind set.now.loads true) result.heavy.sum result.heavy.place }
    ensures light { Reaches S.beyond (line_read sample.now) set.now.loads (Kind set.now.loads false) result.light.sum result.light.place }
{
    // As long as the longest line, since nothing here takes memory from the heap.
    let mut all = [Total { area: 0, help: 0 }; 100_001];
    let firsts = &mut all[0..sample.end()];
    add_up::<S>(sample, firsts);
    let totals: Totals<'_, S> = Totals {
        sample,
        firsts,
        sense: PhantomData,
    };
    let heavy = furthest_heavy(&totals, set);
    let light = furthest_light(&totals, set);
    Reach { heavy, light }
}
