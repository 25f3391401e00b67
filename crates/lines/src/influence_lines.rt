//! The interface to one influence line.
ghost use Rattle.std.specs.Prelude.{◌≡◌, ◌≤◌, pos, unsigned_abs};
ghost use Rattle.lines.specs.Lines.{Line, ordinate_or_zero};
ghost use Rattle.lines.specs.Mild.{Mild};

/// One influence line. Every answer is that of the line meant: 0 for an ordinate off the line.
pub trait InfluenceLine {
    // The line that is meant.
    ghost line: { Self → Line };

    // Each shows that the line keeps its limits.
    ghost mild: { (s : Self) → Mild (line s) };

    /// The length, in mm.
    fn length(&self) -> i64
        ensures value { result ≡ pos (line self.now).len }
        ensures small { unsigned_abs result ≤ 100000 };

    /// The scale: one kN at x has the effect ordinate / scale.
    fn scale(&self) -> i64
        ensures value { result ≡ pos (line self.now).scale }
        ensures small { unsigned_abs result ≤ 1000 };

    /// The ordinate at x mm.
    fn ordinate(&self, x: i64) -> i64
        ensures value { result ≡ ordinate_or_zero (line self.now) x }
        ensures small { unsigned_abs result ≤ 1000000 };
}
