//! What lanes add to a sum.
ghost use Rattle.std.specs.Prelude.{◌≤◌, unsigned_abs};

/// What a heavy and a light lane of one centre add to the sum.
#[derive(Clone, Copy, Debug, PartialEq, Eq)]
pub struct Worth {
    pub heavy: i64,
    pub light: i64,
    ghost small_heavy: { unsigned_abs heavy ≤ 33000000000000000 },
    ghost small_light: { unsigned_abs light ≤ 33000000000000000 },
}

/// What lanes add to the sum, for the centres from 0 to 120.
#[derive(Clone, Copy)]
pub struct Worths {
    pub by_centre: [Worth; 121],
}
