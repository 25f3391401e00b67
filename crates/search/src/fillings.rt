//! Filling a layout: what a lane adds at each centre, and the record of the filled layout.
ghost use Rattle.std.specs.Prelude.{◌≡◌, ℕ, ◌≤◌, Bool, pos, unsigned_abs};
ghost use Rattle.loads.specs.Shares.{listed};
ghost use Rattle.loads.specs.Sums.{share};
ghost use Rattle.deck_search.specs.Layouts.{of_kind, worth};
ghost use Rattle.search.specs.Fillings.{by_share, added_by, sum_in, place_in, place_for, lane_record, Written};

use deck_search::layouts::{Layout, Slot};
use deck_search::worths::{Worth, Worths};
use lane_search::places::LanePlace;
use lane_search::reaches::Reach;
use loads::shares::Shares;
use traffic::records::{LaneRecord, Record};

// An effect, and the place of its load.
#[derive(Clone, Copy)]
struct Effect {
    sum: i64,
    place: LanePlace,
}

// The furthest effect in a lane of a kind.
fn in_lane<S>(reach: &Reach<S>, heavy: bool) -> Effect
    ensures sum { result.sum ≡ sum_in reach.now heavy }
    ensures place { result.place ≡ place_in reach.now heavy }
{
    let furthest = if heavy { reach.heavy } else { reach.light };
    Effect {
        sum: furthest.sum,
        place: furthest.place,
    }
}

// What fills a layout: the shares, and the furthest loads of a lane the way of the search and the other way.
#[derive(Drop)]
pub(crate) struct Filling<'a, S, O> {
    pub(crate) shares: &'a Shares,
    pub(crate) on: &'a Reach<S>,
    pub(crate) back: &'a Reach<O>,
}

impl<S, O> Filling<'_, S, O> {
    // The furthest effect in a lane of a kind, by its share: for one below 0 the furthest the other way.
    fn by_share(&self, heavy: bool, percent: i64) -> Effect
        ensures sum { result.sum ≡ by_share percent (sum_in self.now.on.now heavy) (sum_in self.now.back.now heavy) }
        ensures place { result.place ≡ place_for self.now.on.now self.now.back.now heavy percent }
        ensures small { unsigned_abs result.sum ≤ 330000000000000 }
    {
        if percent < 0 {
            in_lane(self.back, heavy)
        } else {
            in_lane(self.on, heavy)
        }
    }

    // What a lane of a kind adds at a centre.
    fn added(&self, heavy: bool, centre: i32) -> i64
        ensures value { result ≡ added_by (share (listed self.now.shares.now) centre) (sum_in self.now.on.now heavy) (sum_in self.now.back.now heavy) }
        ensures small { unsigned_abs result ≤ 33000000000000000 }
    {
        let percent = self.shares.at(centre);
        percent * self.by_share(heavy, percent).sum
    }

    // What lanes of both kinds add at a centre.
    fn worth(&self, centre: i32) -> Worth
        ensures { (h : Bool) → of_kind h result ≡ added_by (share (listed self.now.shares.now) centre) (sum_in self.now.on.now h) (sum_in self.now.back.now h) }
    {
        Worth {
            heavy: self.added(true, centre),
            light: self.added(false, centre),
        }
    }

    // What lanes add at each centre.
    pub(crate) fn worths(&self) -> Worths
        ensures { (h : Bool) (k : ℕ) → k ≤ 120 → worth result (record { heavy = h; centre = k }) ≡ added_by (share (listed self.now.shares.now) (pos k)) (sum_in self.now.on.now h) (sum_in self.now.back.now h) }
    {
        let mut by_centre = [Worth { heavy: 0, light: 0 }; 121];
        for (k, worth) in by_centre.iter_mut().enumerate() {
            *worth = self.worth(k as i32);
        }
        Worths { by_centre }
    }

    // The lane that a slot becomes.
    fn filled(&self, slot: Slot) -> LaneRecord
        ensures { result ≡ lane_record (listed self.now.shares.now) (place_for self.now.on.now self.now.back.now) slot }
    {
        let centre = i32::from(slot.centre);
        let place = self.by_share(slot.heavy, self.shares.at(centre)).place;
        LaneRecord {
            centre,
            code: place.code,
            a: place.a,
            z: place.z,
            sign: place.sign,
        }
    }

    // Writes the filled layout, whatever the record held before.
    pub(crate) fn write(&self, layout: &Layout, found: &mut Record)
        ensures { Written (lane_record (listed self.now.shares.now) (place_for self.now.on.now self.now.back.now)) layout.now found.new }
    {
        let mut lanes = Record::EMPTY.lanes;
        // Not a `zip` of the lanes with the slots, which was tried: no invariant can name what it writes.
        for (i, slot) in layout.slots().iter().enumerate() {
            lanes[i] = self.filled(*slot);
        }
        *found = Record {
            count: layout.count,
            lanes,
        };
    }
}
