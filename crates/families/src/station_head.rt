//! What a head of stations drafts: exact interpolation between the stations, in 64 bits.
ghost use Rattle.std.specs.Prelude.{◌≡◌, ℕ, ◌+◌, ◌-◌, ◌*◌, ◌/◌, ◌%◌, ◌<◌, ◌≤◌, length, pos, ◌+ℤ◌, ◌*ℤ◌, Decides, IfSome, IfNone, unsigned_abs};
ghost use Rattle.std.specs.Coded.{le_prop};
ghost use Rattle.families.specs.Drafts.{size};
ghost use Rattle.families.specs.Stations.{between, station_draft, station_long};

use crate::head::Head;
use crate::ordinates::{keeps_limits, times};
use crate::questions::Question;
use crate::rows::StationHead;

// A step between stations, from 1 to 1,000.
#[derive(Clone, Copy)]
struct Step {
    size: u32,
    ghost at_least: { 1 ≤ size },
    ghost at_most: { size ≤ 1000 },
}

impl Step {
    // The step of a head, where it is from 1 to 1,000.
    fn of(head: &StationHead) -> Option<Step>
        ensures kept { IfSome result (λ step. step.size ≡ size head.now.step) }
        ensures refused { IfNone result ((1 ≤ size head.now.step) × (size head.now.step ≤ 1000) → ⊥) }
    {
        match u32::try_from(head.step) {
            Ok(size @ 1..=1_000) => Some(Step { size }),
            _ => None,
        }
    }

    // The step of a head of which it is known that it is from 1 to 1,000, so that no ordinate asks again.
    fn known(head: &StationHead) -> Step
        requires low { 1 ≤ size head.now.step }
        requires high { size head.now.step ≤ 1000 }
        ensures { result.size ≡ size head.now.step }
    {
        Step {
            size: head.step.max(0) as u32,
        }
    }

    // The ordinate past one station, and the rest of the step before the next.
    fn weighed(self, past: u32, here: i32, next: i32) -> i64
        requires { past ≤ self.size }
        ensures { result ≡ pos (self.size - past) *ℤ here +ℤ pos past *ℤ next }
    {
        times(self.size - past, here) + times(past, next)
    }

    // The ordinate at x. The last station has no next one, and needs none.
    fn straight(self, ys: &[i32], x: u32) -> i64
        requires here { x / self.size < length ys.now }
        requires next { 0 < x % self.size → x / self.size + 1 < length ys.now }
        ensures { result ≡ between self.size ys.now x }
    {
        let station = (x / self.size) as usize;
        let past = x % self.size;
        if past == 0 {
            self.weighed(0, ys[station], 0)
        } else {
            self.weighed(past, ys[station], ys[station + 1])
        }
    }

    // Whether n stations make a line. More than 100,001 are too long at any step.
    fn is_line(self, n: usize) -> bool
        ensures { Decides result ((2 ≤ n) × (self.size * (n - 1) ≤ 100000)) }
    {
        2 <= n && n <= 100_001 && self.size as usize * (n - 1) <= 100_000
    }

    // Whether the ordinate at a station keeps its limits.
    fn is_small(self, y: i32) -> bool
        ensures { Decides result (self.size * unsigned_abs y ≤ 1000000) }
    {
        keeps_limits(times(self.size, y))
    }

    // Whether every ordinate keeps its limits: those at the stations decide.
    fn is_bounded(self, ys: &[i32]) -> bool
        requires { 2 ≤ length ys.now }
        ensures { Decides result ((x : ℕ) → x ≤ self.size * (length ys.now - 1) → unsigned_abs (between self.size ys.now x) ≤ 1000000) }
    {
        ys.iter().all(|&y| self.is_small(y))
    }
}

impl Head for StationHead {
    type Row = i32;

    ghost taken = { λ h. h.stations };

    ghost draft = { station_draft };

    ghost enough_prop = { λ head own. le_prop };

    ghost long = { station_long };

    fn taken(&self) -> u32 {
        self.stations
    }

    fn first_no(&self, own: &[i32]) -> Option<Question> {
        // The step that answers the first question asks the others, so no trait method asks each.
        let Some(step) = Step::of(self) else {
            return Some(Question::Scale);
        };
        if !step.is_line(own.len()) {
            Some(Question::Length)
        } else if !step.is_bounded(own) {
            Some(Question::Ordinates)
        } else {
            None
        }
    }

    fn length(&self, own: &[i32]) -> i64 {
        i64::from(self.step) * (own.len() as i64 - 1)
    }

    fn scale(&self, _own: &[i32]) -> i64 {
        i64::from(self.step)
    }

    fn ordinate(&self, own: &[i32], x: i64) -> i64 {
        if !(0..=self.length(own)).contains(&x) {
            return 0;
        }
        Step::known(self).straight(own, x as u32)
    }
}
