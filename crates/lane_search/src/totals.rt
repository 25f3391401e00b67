//! A line with the sums over its first cells.
ghost use Rattle.std.specs.Prelude.{◌≡◌, ◌+◌, ◌≤◌, true, length, unsigned_abs};
ghost use Rattle.lines.specs.Cells.{areas};
ghost use Rattle.lane_search.specs.Readings.{line_read};
ghost use Rattle.lane_search.specs.Gains.{gains, areas_of, helps_of, Running};

use crate::samples::Sample;
use crate::total::Total;
use keeper::senses::Sense;
use std::marker::PhantomData;

// Writes the sums over the first k cells, for each k.
pub(crate) fn add_up<S: Sense>(sample: &Sample, totals: &mut [Total])
    requires { length totals.old ≡ sample.now.length + 1 }
    ensures all { Running (line_read sample.now) (λ _. true) (areas_of totals.new) }
    ensures helping { Running (line_read sample.now) (gains S.beyond (line_read sample.now)) (helps_of totals.new) }
{
    let mut sum = Total { area: 0, help: 0 };
    for (k, total) in totals.iter_mut().enumerate() {
        *total = sum;
        sum = sum.with::<S>(sample.double_area(k));
    }
}

/// A line that was read, with the sums over its first k cells for each k.
#[derive(Drop)]
pub(crate) struct Totals<'a, S: Sense> {
    pub sample: &'a Sample,
    pub firsts: &'a [Total],
    pub sense: PhantomData<S>,
    ghost all_cells: { Running (line_read sample.now) (λ _. true) (areas_of firsts.now) },
    ghost helping_cells: { Running (line_read sample.now) (gains S.beyond (line_read sample.now)) (helps_of firsts.now) },
}

impl<S: Sense> Totals<'_, S> {
    // The double areas of all cells that help.
    pub(crate) fn help(&self) -> i64
        ensures value { result ≡ areas (line_read self.now.sample.now) (gains S.beyond (line_read self.now.sample.now)) }
        ensures small { unsigned_abs result ≤ 200000000000 }
    {
        self.firsts[self.firsts.len() - 1].help
    }
}
