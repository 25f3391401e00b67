//! Figures worked out by hand.
ghost use Rattle.std.specs.Prelude.{◌≡◌, length};
ghost use Rattle.traffic.specs.Figures.{figures, FiguresHold};

/// How many figures were worked out by hand, each of which the definitions give.
pub fn hand_figures() -> usize
    ensures count { result ≡ length figures }
    ensures hold { FiguresHold }
{
    13
}
