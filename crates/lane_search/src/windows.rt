//! The furthest ordinate in each window of a line, for a row of starts at a time.
ghost use Rattle.std.specs.Prelude.{◌≡◌, length};
ghost use Rattle.keeper.specs.Order.{further_of};
ghost use Rattle.loads.specs.Decks.{Start};
ghost use Rattle.lane_search.specs.Reach.{Backs, Fulls};
ghost use Rattle.lane_search.specs.Readings.{line_read};

use crate::samples::Sample;
use keeper::keepers::Keeper;
use keeper::senses::Sense;

// Writes, for each place of a row that begins at `from`, the furthest ordinate from there to the row's end.
fn fill_back<S: Sense>(sample: &Sample, from: i64, tops: &mut [i64])
    requires { Start from }
    ensures { Backs S.beyond (line_read sample.now) from 0 tops.new }
{
    let last = from + tops.len() as i64 - 1;
    let mut best: Keeper<S, i64> = Keeper::new(sample.at(last), last);
    // By index: over `iter_mut().enumerate().rev()`, which was tried, no invariant can name the row.
    for at in (0..tops.len()).rev() {
        let place = from + at as i64;
        best.offer(sample.at(place), place);
        tops[at] = best.sum;
    }
}

// The new ordinate where it goes further than the old one; else the old one. Not `max`: a sense is no order of a type.
pub(crate) fn further_of<S: Sense>(new: i64, old: i64) -> i64
    ensures { result ≡ further_of S.beyond new old new old }
{
    if S::further(new, old) { new } else { old }
}

// Joins to each run of the row what its window reaches past the row's end.
fn join_ahead<S: Sense>(sample: &Sample, from: i64, tops: &mut [i64])
    requires near { Start from }
    requires backs { Backs S.beyond (line_read sample.now) from 0 tops.old }
    ensures { Fulls S.beyond (line_read sample.now) from (length tops.new) tops.new }
{
    let last = from + tops.len() as i64 - 1;
    let mut ahead: Keeper<S, i64> = Keeper::new(sample.at(last), last);
    for (at, top) in tops.iter_mut().enumerate() {
        *top = further_of::<S>(ahead.sum, *top);
        let next = last + at as i64 + 1;
        ahead.offer(sample.at(next), next);
    }
}

// A start is a plain number with a clause, here and where it is weighed: a type for it is no plainer, since each loop would wrap every number it counts.
// Sample, start and row stay parameters: the start is another one each time, and the row is lent to two writers in turn.
// For each start of a row that begins at `from`, the furthest ordinate in the window from that start on, which is as long as the row.
pub(crate) fn best_tops<S: Sense>(sample: &Sample, from: i64, tops: &mut [i64])
    requires { Start from }
    ensures { Fulls S.beyond (line_read sample.now) from (length tops.new) tops.new }
{
    fill_back::<S>(sample, from, tops);
    join_ahead::<S>(sample, from, tops);
}
