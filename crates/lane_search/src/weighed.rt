//! Running sums that are weighed for a block.
ghost use Rattle.std.specs.Prelude.{◌≡◌, ◌-◌, ◌*◌, ◌≤◌, length, ℤ, pos, ◌+ℤ◌, ◌-ℤ◌, ◌*ℤ◌, slice_index_or, unsigned_abs};
ghost use Rattle.lines.specs.Cells.{clip};
ghost use Rattle.loads.specs.Decks.{Start};
ghost use Rattle.lane_search.specs.Readings.{line_read};
ghost use Rattle.lane_search.specs.Gains.{areas_of, helps_of, between, Sized};
ghost use Rattle.lane_search.specs.Blocks.{Weighted, rest};

use crate::block_loads::BlockLoad;
use crate::samples::Sample;
use crate::total::Total;
use crate::totals::Totals;
use keeper::senses::Sense;
use std::marker::PhantomData;

// A factor times an ordinate or an area. The effects of a record have a twin: one for both would be a public call that asks a bound of its callers.
pub(crate) fn times(factor: u32, y: i64) -> i64
    requires { factor * unsigned_abs y ≤ 9000000000000000000 }
    ensures value { result ≡ pos factor *ℤ y }
    ensures small { unsigned_abs result ≡ factor * unsigned_abs y }
{
    factor as i64 * y
}

fn weighed_sum(load: BlockLoad, total: Total) -> i64
    requires area { unsigned_abs total.area ≤ 200000000000 }
    requires help { unsigned_abs total.help ≤ 200000000000 }
    ensures { result ≡ pos load.rate *ℤ total.area -ℤ pos load.lane *ℤ total.help }
{
    times(load.rate, total.area) - times(load.lane, total.help)
}

// Writes the sums of double areas times the rate, less those that help times the factor of p.
pub(crate) fn weigh_sums<S: Sense>(totals: &Totals<'_, S>, load: BlockLoad, sums: &mut [i64])
    requires { length sums.old ≡ length totals.now.firsts.now }
    ensures { Weighted load (areas_of totals.now.firsts.now) (helps_of totals.now.firsts.now) sums.new }
{
    // Not a `zip` with the totals, which was tried: no invariant can name what it writes.
    for (k, sum) in sums.iter_mut().enumerate() {
        *sum = weighed_sum(load, totals.firsts[k]);
    }
}

/// The weighed sums over the first cells of a line, and p on all cells that help: what stands with the axle follows from them, wherever the block begins.
#[derive(Drop)]
pub(crate) struct Weighed<'a, S: Sense> {
    pub sample: &'a Sample,
    pub load: BlockLoad,
    pub sums: &'a [i64],
    pub all: i64,
    pub sense: PhantomData<S>,
    ghost sized: { Sized 3000000000000000 sums.now },
    ghost few: { unsigned_abs all ≤ 134400000000000 },
    ghost beside_axle: { (x : ℤ) → between sums.now x load.length +ℤ all ≡ rest S.beyond (line_read sample.now) load x },
}

impl<S: Sense> Weighed<'_, S> {
    // The sum over the cells before x.
    fn sum_to(&self, x: i64) -> i64
        ensures value { result ≡ slice_index_or self.now.sums.now (clip (length self.now.sums.now - 1) x) (pos 0) }
        ensures small { unsigned_abs result ≤ 3000000000000000 }
    {
        let last = self.sums.len() as i64 - 1;
        self.sums[x.clamp(0, last) as usize]
    }

    // The sum over the cells of the block from a on.
    fn sum_under(&self, a: i64) -> i64
        requires { Start a }
        ensures value { result ≡ between self.now.sums.now a self.now.load.length }
        ensures small { unsigned_abs result ≤ 6000000000000000 }
    {
        self.sum_to(a + self.load.length as i64) - self.sum_to(a)
    }

    // The sum of the block that begins at a, with the axle on an ordinate y.
    pub(crate) fn laden_at(&self, a: i64, y: i64) -> i64
        requires near { Start a }
        requires small { unsigned_abs y ≤ 1000000 }
        ensures { result ≡ pos self.now.load.extra *ℤ y +ℤ rest S.beyond (line_read self.now.sample.now) self.now.load a }
    {
        times(self.load.extra, y) + (self.sum_under(a) + self.all)
    }
}
