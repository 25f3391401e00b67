//! The shares of a member.
ghost use Rattle.std.specs.Prelude.{ℕ, ◌≤◌, pos, slice_index_or, unsigned_abs};

/// A member's shares of the effect of a lane, in percent, for the lane's centres from 0 to the clear width.
// A fixed array, since nothing here allocates; the width beside it says how many of its shares are given.
#[derive(Clone, Copy)]
pub struct Shares {
    pub(crate) width: u8,
    pub(crate) percents: [i32; 121],
    ghost few: { width ≤ 120 },
    ghost fair: { (k : ℕ) → unsigned_abs (slice_index_or percents k (pos 0)) ≤ 100 },
}

/// A question that shares are asked.
#[derive(Clone, Copy, Debug, PartialEq, Eq)]
pub enum ShareQuestion {
    /// Is there one share for each centre from 0 to the clear width?
    Count,
    /// Is each share from -100 to 100?
    Size,
}
