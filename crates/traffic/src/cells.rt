//! The double areas under p.
ghost use Rattle.std.specs.Prelude.{◌≡◌, ℕ, ◌≤◌, Bool, unsigned_abs};
ghost use Rattle.lines.specs.Cells.{areas, block};
ghost use Rattle.traffic.specs.Records.{fills};
ghost use Rattle.traffic.specs.Sets.{Takes};

use crate::records::Sign;
use lines::influence_lines::InfluenceLine;

pub(crate) fn is_under(a: i32, length: u16, k: u32) -> bool
    ensures { result ≡ block a length k }
{
    a as i64 <= k as i64 && (k as i64) < a as i64 + length as i64
}

pub(crate) fn is_filled(sign: Sign, area: i64) -> bool
    ensures { result ≡ fills sign area }
{
    match sign {
        Sign::Below => area < 0,
        Sign::None => false,
        Sign::Above => area > 0,
    }
}

// The double areas of the cells that a test on their places and double areas takes.
// A loop, since no chain's sum of signed numbers comes with its bounds.
pub(crate) fn areas_of<L: InfluenceLine, T: Fn(u32, i64) -> bool>(line: &L, takes: T) -> i64
    requires { T.IsAlwaysCallable takes }
    ensures value { (set : ℕ → Bool) → Takes (L.line line.now) (T.post takes) set → result ≡ areas (L.line line.now) set }
    ensures small { unsigned_abs result ≤ 200000000000 }
{
    let n = line.length() as u32;
    let mut sum = 0;
    // Each ordinate is asked once, for the cells on both its sides; `double_area` would ask the length at each cell too.
    let mut here = line.ordinate(0);
    for k in 0..n {
        let next = line.ordinate(k as i64 + 1);
        let area = here + next;
        if takes(k, area) {
            sum += area;
        }
        here = next;
    }
    sum
}
