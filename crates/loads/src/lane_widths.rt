//! The width of a lane.
ghost use Rattle.std.specs.Prelude.{◌≡◌};
ghost use Rattle.loads.specs.Decks.{half, past};

/// Half the width that a lane covers, in dm.
pub fn half_width(heavy: bool) -> u8
    ensures { result ≡ half heavy }
{
    if heavy { 15 } else { 10 }
}

/// How far a lane may reach past an edge of the clear width, in dm.
pub fn past_edge(heavy: bool, raised: bool) -> u8
    ensures { result ≡ past heavy raised }
{
    if heavy && raised { 2 } else { 0 }
}
