//! The interface to numbered influence lines.
ghost use Rattle.std.specs.Prelude.{◌≡◌, ◌≤◌, List, length, pos, unsigned_abs};
ghost use Rattle.lines.specs.Lines.{Line, line_no, ordinate_or_zero, Limits};

/// A family of influence lines, numbered from 0. Every answer is that of the family's meaning:
/// 0 for a line that is not there, and 0 for an ordinate off the line.
pub trait Family {
    // The meaning: the lines, in the order of their numbers.
    ghost lines: { Self → List Line };

    // Each family shows that there are at most 65,535 lines and that each keeps its limits.
    ghost limits: { (s : Self) → Limits (lines s) };

    /// How many lines there are.
    fn count(&self) -> i32
        ensures value { result ≡ pos (length (lines self.now)) }
        ensures small { unsigned_abs result ≤ 65535 };

    /// The length of a line, in mm.
    fn length(&self, line: i32) -> i64
        ensures value { result ≡ pos (line_no (lines self.now) line).len }
        ensures small { unsigned_abs result ≤ 100000 };

    /// The scale of a line: one kN at x has the effect ordinate / scale.
    fn scale(&self, line: i32) -> i64
        ensures value { result ≡ pos (line_no (lines self.now) line).scale }
        ensures small { unsigned_abs result ≤ 1000 };

    // A number and a place are two parameters here, since a family is asked about any of its lines; with one line in hand take `Numbered`.
    /// The ordinate of a line at x mm.
    fn ordinate(&self, line: i32, x: i64) -> i64
        ensures value { result ≡ ordinate_or_zero (line_no (lines self.now) line) x }
        ensures small { unsigned_abs result ≤ 1000000 };
}
