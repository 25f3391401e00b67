//! The start of a block, and the place of the axle on it, that go furthest.
ghost use Rattle.std.specs.Prelude.{◌≡◌, ◌+◌, length, pos, negsuc, ◌+ℤ◌, ◌≤ℤ◌};
ghost use Rattle.keeper.specs.Worst.{Worst, Between};
ghost use Rattle.lines.specs.Lines.{ordinate_or_zero};
ghost use Rattle.loads.specs.Decks.{Start};
ghost use Rattle.lane_search.specs.Readings.{line_read};
ghost use Rattle.lane_search.specs.Reach.{Windowed};
ghost use Rattle.lane_search.specs.Blocks.{laden, On, Begun};

use crate::samples::Sample;
use crate::weighed::Weighed;
use crate::windows::best_tops;
use keeper::keepers::Keeper;
use keeper::senses::Sense;

// The place from `from` on, as far as `len` past it, whose ordinate goes furthest.
fn furthest_place<S: Sense>(sample: &Sample, from: i64, len: u16) -> Keeper<S, i64>
    requires near { Start from }
    ensures { Worst S.beyond (ordinate_or_zero (line_read sample.now)) (Between from (from +ℤ pos (len + 1))) result.sum result.place }
{
    let mut best: Keeper<S, i64> = Keeper::new(sample.at(from), from);
    for z in from + 1..from + len as i64 + 1 {
        best.offer(sample.at(z), z);
    }
    best
}

// Offers the starts of a row, each with the axle at the best place on the block there, whose ordinate is in `tops`.
fn offer_row<S: Sense>(
    worst: &mut Keeper<S, i64>,
    weighed: &Weighed<'_, S>,
    from: i64,
    tops: &[i64],
)
    requires low { negsuc 15998 ≤ℤ from }
    requires high { (from +ℤ pos (length tops.now)) ≤ℤ pos 100001 }
    requires tops { Windowed S.beyond (line_read weighed.now.sample.now) (weighed.now.load.length + 1) from tops.now }
    requires before { Begun S.beyond (line_read weighed.now.sample.now) weighed.now.load from worst.old.sum worst.old.place }
    ensures { Begun S.beyond (line_read weighed.now.sample.now) weighed.now.load (from +ℤ pos (length tops.now)) worst.new.sum worst.new.place }
{
    for (at, top) in tops.iter().enumerate() {
        let start = from + at as i64;
        worst.offer(weighed.laden_at(start, *top), start);
    }
}

// The start that goes furthest with the axle at the best place on the block there, row after row of starts. Past the line a block goes as far as at -16,000.
fn block_start<S: Sense>(weighed: &Weighed<'_, S>, tops: &mut [i64]) -> Keeper<S, i64>
    requires { length tops.old ≡ weighed.now.load.length + 1 }
    ensures { Begun S.beyond (line_read weighed.now.sample.now) weighed.now.load (pos 100001) result.sum result.place }
{
    let first: Keeper<S, i64> = furthest_place(weighed.sample, -16_000, weighed.load.length);
    let mut worst: Keeper<S, i64> = Keeper::new(weighed.laden_at(-16_000, first.sum), -16_000);
    let starts = weighed.sample.end() + 15_999;
    let length = tops.len();
    // Rows by number: a `step_by` over the starts is no plainer, since it needs a measure and hides how far it came.
    for row in 0..starts.div_ceil(length) {
        let before = row * length;
        let from = before as i64 - 15_999;
        best_tops::<S>(weighed.sample, from, tops);
        let on_line = length.min(starts - before);
        offer_row(&mut worst, weighed, from, &tops[..on_line]);
    }
    worst
}

// Of all starts and all places of the axle, those whose sum goes furthest.
pub(crate) fn furthest_block<S: Sense>(
    weighed: &Weighed<'_, S>,
    tops: &mut [i64],
) -> Keeper<S, (i64, i64)>
    requires { length tops.old ≡ weighed.now.load.length + 1 }
    ensures { Worst S.beyond (laden S.beyond (line_read weighed.now.sample.now) weighed.now.load) (On weighed.now.load.length (pos 100001)) result.sum result.place }
{
    let best: Keeper<S, i64> = block_start(weighed, tops);
    let axle: Keeper<S, i64> = furthest_place(weighed.sample, best.place, weighed.load.length);
    Keeper::new(best.sum, (best.place, axle.place))
}
