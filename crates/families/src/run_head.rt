//! What a head of runs drafts: the ordinate climbs by the rise at each millimetre of a run.
ghost use Rattle.std.specs.Prelude.{◌≡◌, ℕ, ◌≤◌, length, pos, ◌+ℤ◌, ◌*ℤ◌, Decides, sum_by, unsigned_abs};
ghost use Rattle.std.specs.Coded.{×_prop, Π_prop, le_prop};
ghost use Rattle.lines.specs.Lines.{ordinate_or_zero};
ghost use Rattle.families.specs.Runs.{run_size, run_line, run_draft, run_long, climb, Rowed};

use crate::head::Head;
use crate::ordinates::{keeps_limits, times};
use crate::questions::Question;
use crate::rows::{Run, RunHead};

impl Run {
    // The length, where it is not below 0. Each ordinate asks it of run after run, and `try_from` takes longer.
    fn size(&self) -> u32
        ensures { result ≡ run_size self.now }
    {
        self.length.max(0) as u32
    }

    // The ordinate n millimetres into the run, where y is that at its beginning.
    fn climbed(&self, y: i64, n: u32) -> i64
        requires { unsigned_abs y ≤ 1000000 }
        ensures { result ≡ y +ℤ pos n *ℤ self.now.rise }
    {
        y + times(n, self.rise)
    }
}

// Whether runs make a line: there is one, none is shorter than 1, and they are at most 100,000 long in all.
fn is_line(runs: &[Run]) -> bool
    ensures { Decides result (Rowed runs.now × (sum_by run_size runs.now ≤ 100000)) }
{
    // The sum of all lengths may not fit, so the loop stops past 100,000.
    let mut end = 0;
    for run in runs {
        let len = run.size();
        end += u64::from(len);
        if len < 1 || end > 100_000 {
            return false;
        }
    }
    !runs.is_empty()
}

// Where the last run ends.
fn end_of(runs: &[Run]) -> u32
    requires { sum_by run_size runs.now ≤ 100000 }
    ensures { result ≡ sum_by run_size runs.now }
{
    runs.iter().map(|run| run.size()).sum()
}

// Whether every ordinate keeps its limits: those at the ends of the runs decide.
fn is_bounded(runs: &[Run]) -> bool
    ensures { Decides result ((x : ℕ) → x ≤ sum_by run_size runs.now → unsigned_abs (climb runs.now x) ≤ 1000000) }
{
    let mut y = 0;
    for run in runs {
        y = run.climbed(y, run.size());
        if !keeps_limits(y) {
            return false;
        }
    }
    true
}

// The ordinate at x, which may lie past the last run.
fn ordinate_at(runs: &[Run], x: u32) -> i64
    requires some { 1 ≤ length runs.now }
    requires small { (x : ℕ) → x ≤ sum_by run_size runs.now → unsigned_abs (climb runs.now x) ≤ 1000000 }
    ensures { result ≡ ordinate_or_zero (run_line 1 runs.now) (pos x) }
{
    let mut y = 0;
    let mut left = x;
    for run in runs {
        let n = run.size();
        if left <= n {
            return run.climbed(y, left);
        }
        y = run.climbed(y, n);
        left -= n;
    }
    0
}

impl Head for RunHead {
    type Row = Run;

    ghost taken = { λ h. h.runs };

    ghost draft = { run_draft };

    ghost enough_prop = { λ head own. ×_prop le_prop (Π_prop (λ k. Π_prop (λ _. le_prop))) };

    ghost long = { run_long };

    fn taken(&self) -> u32 {
        self.runs
    }

    fn first_no(&self, own: &[Run]) -> Option<Question> {
        if !(1..=1_000).contains(&self.scale) {
            Some(Question::Scale)
        } else if !is_line(own) {
            Some(Question::Length)
        } else if !is_bounded(own) {
            Some(Question::Ordinates)
        } else {
            None
        }
    }

    fn length(&self, own: &[Run]) -> i64 {
        i64::from(end_of(own))
    }

    fn scale(&self, _own: &[Run]) -> i64 {
        i64::from(self.scale)
    }

    fn ordinate(&self, own: &[Run], x: i64) -> i64 {
        if !(0..=100_000).contains(&x) {
            return 0;
        }
        ordinate_at(own, x as u32)
    }
}
