//! Ordinates in 64 bits, and their limits.
ghost use Rattle.std.specs.Prelude.{◌≡◌, ◌*◌, ◌^◌, ◌≤◌, pos, ◌*ℤ◌, Decides, unsigned_abs};

// A multiple of an ordinate or of a rise, widened.
pub(crate) fn times(a: u32, y: i32) -> i64
    ensures value { result ≡ pos a *ℤ y }
    ensures small { unsigned_abs result ≤ a * 2 ^ 31 }
{
    i64::from(a) * i64::from(y)
}

// Whether an ordinate keeps its limits.
pub(crate) fn keeps_limits(y: i64) -> bool
    ensures { Decides result (unsigned_abs y ≤ 1000000) }
{
    (-1_000_000..=1_000_000).contains(&y)
}
