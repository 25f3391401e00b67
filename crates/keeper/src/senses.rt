//! Senses: which of two sums goes further.
ghost use Rattle.std.specs.Prelude.{◌≡◌, Bool, ℤ, int_lt};
ghost use Rattle.keeper.specs.Order.{Order, upward, downward};

/// A total order of sums, which stays when one number is added to both sides. A search knows nothing else of it.
pub trait Sense {
    // The first sum goes further than the second.
    ghost beyond: { ℤ → ℤ → Bool };

    // What each sense shows of it.
    ghost order: { Order beyond };

    /// Whether a goes further than b.
    fn further(a: i64, b: i64) -> bool
        ensures { result ≡ beyond a b };
}

/// The larger sum goes further.
pub enum Up {}

/// The smaller sum goes further.
pub enum Down {}

impl Sense for Up {
    ghost beyond = { λ a b. int_lt b a };

    ghost order = { upward };

    fn further(a: i64, b: i64) -> bool {
        a > b
    }
}

impl Sense for Down {
    ghost beyond = { λ a b. int_lt a b };

    ghost order = { downward };

    fn further(a: i64, b: i64) -> bool {
        a < b
    }
}
