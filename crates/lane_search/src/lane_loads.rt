//! The furthest vehicle, train and p of a lane.
ghost use Rattle.std.specs.Prelude.{◌≡◌, false, ℤ, pos};
ghost use Rattle.keeper.specs.Worst.{Worst};
ghost use Rattle.traffic.specs.Records.{fills};
ghost use Rattle.lane_search.specs.Readings.{line_read};
ghost use Rattle.lane_search.specs.Blocks.{laden, On};
ghost use Rattle.lane_search.specs.Places.{OfVehicle, OfTrain, Kind, Reaches};

use crate::block_loads::BlockLoad;
use crate::blocks::furthest_block;
use crate::places::LanePlace;
use crate::totals::Totals;
use crate::weighed::{Weighed, times, weigh_sums};
use crate::work::Work;
use keeper::keepers::Keeper;
use keeper::senses::Sense;
use loads::load_sets::LoadSet;
use std::marker::PhantomData;
use traffic::records::{Code, Sign};

// The p sign of the cells that go further than 0.
fn sign_of<S: Sense>() -> Sign
    ensures { (d : ℤ) → fills result d ≡ S.beyond d (pos 0) }
{
    if S::further(1, 0) {
        Sign::Above
    } else {
        Sign::Below
    }
}

// Of all starts of a block and all places of the axle on it, those whose sum goes furthest, as a place with a code and a sign.
fn furthest_over<S: Sense>(
    totals: &Totals<'_, S>,
    load: BlockLoad,
    code: Code,
    sign: Sign,
    work: &mut Work,
) -> Keeper<S, LanePlace>
    ensures furthest { Worst S.beyond (laden S.beyond (line_read totals.now.sample.now) load) (On load.length (pos 100001)) result.sum (result.place.a, result.place.z) }
    ensures code { result.place.code ≡ code }
    ensures sign { result.place.sign ≡ sign }
{
    let n = totals.firsts.len();
    let sums = &mut work.sums[..];
    let sums = &mut sums[..n];
    weigh_sums(totals, load, sums);
    let weighed: Weighed<'_, S> = Weighed {
        sample: totals.sample,
        load,
        sums,
        all: times(load.lane, totals.help()),
        sense: PhantomData,
    };
    let row = load.length as usize + 1;
    let tops = &mut work.tops[..];
    let found = furthest_block(&weighed, &mut tops[..row]);
    let (a, z) = found.place;
    let place = LanePlace {
        code,
        a: a as i32,
        z: z as i32,
        sign,
    };
    Keeper::new(found.sum, place)
}

// Sums, set and work stay parameters here and below: no fact ties them, and the work is lent to one search after the other.
// Of all vehicles, the one whose effect goes furthest.
pub(crate) fn furthest_vehicle<S: Sense>(
    totals: &Totals<'_, S>,
    set: &LoadSet,
    work: &mut Work,
) -> Keeper<S, LanePlace>
    ensures { Reaches S.beyond (line_read totals.now.sample.now) set.now.loads (OfVehicle set.now.loads) result.sum result.place }
{
    let load = BlockLoad::vehicle(set);
    furthest_over(totals, load, Code::Vehicle, Sign::None, work)
}

// Of all trains, with p on any cells beside them, the one whose effect goes furthest.
pub(crate) fn furthest_train<S: Sense>(
    totals: &Totals<'_, S>,
    set: &LoadSet,
    work: &mut Work,
) -> Keeper<S, LanePlace>
    ensures { Reaches S.beyond (line_read totals.now.sample.now) set.now.loads (OfTrain set.now.loads) result.sum result.place }
{
    let load = BlockLoad::train(set);
    furthest_over(totals, load, Code::Train, sign_of::<S>(), work)
}

// Of all sets of cells under p, the one whose effect goes furthest.
pub(crate) fn furthest_light<S: Sense>(
    totals: &Totals<'_, S>,
    set: &LoadSet,
) -> Keeper<S, LanePlace>
    ensures { Reaches S.beyond (line_read totals.now.sample.now) set.now.loads (Kind set.now.loads false) result.sum result.place }
{
    let place = LanePlace {
        code: Code::Light,
        a: 0,
        z: 0,
        sign: sign_of::<S>(),
    };
    Keeper::new(times(112 * set.loads.lane as u32, totals.help()), place)
}
