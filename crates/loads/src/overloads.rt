//! Whether a traffic sum overloads a member: the three sums, in 128 bits, against the capacities.
ghost use Rattle.std.specs.Prelude.{◌≡◌, ◌*◌, ◌^◌, ◌≤◌, ◌↔◌, Any, IsTrue, [], ◌∷◌, ℤ, pos, ◌+ℤ◌, ◌*ℤ◌, ◌<ℤ◌, Decides, unsigned_abs};
ghost use Rattle.lines.specs.Lines.{Line};
ghost use Rattle.loads.specs.Sums.{unit, three_sums, AboveUp, BelowDown, Overloaded};

use crate::strengths::Figures;
use lines::influence_lines::InfluenceLine;

// A product in 128 bits.
fn wide(x: i64, y: i64) -> i128
    ensures value { result ≡ x *ℤ y }
    ensures small { unsigned_abs result ≤ 2 ^ 126 }
{
    x as i128 * y as i128
}

// This and the next differ in the order that they test, and so do the two that call them, in the sign of the bound too: an order as a parameter would hide which is which.
fn is_above(sums: &[i128], bound: i128) -> bool
    ensures { Decides result (Any (λ s. bound <ℤ s) sums.now) }
{
    sums.iter().any(|sum| *sum > bound)
}

fn is_below(sums: &[i128], bound: i128) -> bool
    ensures { Decides result (Any (λ s. s <ℤ bound) sums.now) }
{
    sums.iter().any(|sum| *sum < bound)
}

// One kN of dead load or capacity, as so much of a traffic sum.
#[derive(Clone, Copy)]
struct Unit {
    size: i64,
    ghost small: { unsigned_abs size ≤ 22400000000 },
}

impl Unit {
    // That of a line.
    fn of<L: InfluenceLine>(line: &L) -> Unit
        ensures { result.size ≡ unit (L.line line.now) }
    {
        Unit {
            size: 22_400_000 * line.scale(),
        }
    }

    // So many units of a force.
    fn times(self, factor: i64, force: i32) -> i128
        requires { unsigned_abs factor ≤ 23 }
        ensures value { result ≡ factor *ℤ self.size *ℤ force }
        ensures small { unsigned_abs result ≤ 2 ^ 70 }
    {
        wide(factor * self.size, force as i64)
    }

    // One of the sums of dead load and traffic.
    fn sum_of(self, g: i64, t: i64, dead: i32, q: i64) -> i128
        requires { unsigned_abs g ≤ 23 }
        ensures { result ≡ g *ℤ self.size *ℤ dead +ℤ t *ℤ q }
    {
        self.times(g, dead) + wide(t, q)
    }

    // The three sums of dead load and traffic.
    fn sums_of(self, dead: i32, q: i64) -> [i128; 3]
        ensures { result ≡ three_sums self.size dead q }
    {
        [
            self.sum_of(23, 28, dead, q),
            self.sum_of(20, 28, dead, q),
            self.sum_of(20, 24, dead, q),
        ]
    }

    fn is_above_up(self, figures: &Figures, q: i64) -> bool
        ensures { Decides result (AboveUp self.size figures.now q) }
    {
        match figures.up {
            Some(capacity) => is_above(&self.sums_of(figures.dead, q), self.times(20, capacity)),
            None => false,
        }
    }

    fn is_below_down(self, figures: &Figures, q: i64) -> bool
        ensures { Decides result (BelowDown self.size figures.now q) }
    {
        match figures.down {
            Some(capacity) => is_below(&self.sums_of(figures.dead, q), -self.times(20, capacity)),
            None => false,
        }
    }
}

/// Whether a traffic sum on a line overloads a member, up or down.
// Figures and sum stay two parameters here and above: a member's figures stand for all its sums.
pub fn overloads<L: InfluenceLine>(line: &L, figures: &Figures, q: i64) -> bool
    ensures { Decides result (Overloaded (L.line line.now) figures.now q) }
{
    let unit = Unit::of(line);
    let up = unit.is_above_up(figures, q);
    let down = unit.is_below_down(figures, q);
    up | down
}
