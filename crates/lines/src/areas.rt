//! Areas under a line.
ghost use Rattle.std.specs.Prelude.{◌≡◌, ℕ, ◌*◌, ◌≤◌, pos, ◌+ℤ◌, ◌≤ℤ◌, unsigned_abs};
ghost use Rattle.lines.specs.Lines.{Line, ordinate_or_zero};
ghost use Rattle.lines.specs.Cells.{cell_area, areas, block, clip};

use crate::influence_lines::InfluenceLine;

/// The double area of the cell k of a line; 0 where there is no such cell.
pub fn double_area<L: InfluenceLine>(line: &L, k: i64) -> i64
    ensures value { result ≡ cell_area (L.line line.now) k }
    ensures small { unsigned_abs result ≤ 2000000 }
{
    if k >= 0 && k < line.length() {
        line.ordinate(k) + line.ordinate(k + 1)
    } else {
        0
    }
}

// The place of x on the stretch from 0 to n.
fn clipped(x: i64, n: i64) -> u32
    requires low { pos 0 ≤ℤ n }
    requires high { n ≤ℤ pos 100000 }
    ensures { result ≡ clip (unsigned_abs n) x }
{
    x.clamp(0, n) as u32
}

// The place of a + len on the stretch from 0 to n.
fn clipped_end(a: i64, len: u32, n: i64) -> u32
    requires low { pos 0 ≤ℤ n }
    requires high { n ≤ℤ pos 100000 }
    ensures { result ≡ clip (unsigned_abs n) (a +ℤ pos len) }
{
    clipped(a.saturating_add(len as i64), n)
}

// A loop, since no chain's sum of signed numbers comes with its bounds.
/// The double areas of a line's cells from a on, len of them: those from a to a + len.
pub fn double_areas<L: InfluenceLine>(line: &L, a: i64, len: u32) -> i64
    ensures value { result ≡ areas (L.line line.now) (block a len) }
    ensures small { unsigned_abs result ≤ 200000000000 }
    ensures short { unsigned_abs result ≤ len * 2000000 }
{
    let n = line.length();
    let from = clipped(a, n);
    let to = clipped_end(a, len, n);
    let mut sum = 0;
    for k in from..to {
        sum += double_area(line, k as i64);
    }
    sum
}
