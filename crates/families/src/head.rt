//! What a head drafts from its rows.
ghost use Rattle.std.specs.Prelude.{◌≡◌, ℕ, ◌≤◌, List, pos, None};
ghost use Rattle.lines.specs.Lines.{ordinate_or_zero};
ghost use Rattle.families.specs.Drafts.{Draft, Found, Scaled, Sized};

use crate::questions::Question;

/// A head takes some rows as its own, and drafts an influence line from them.
pub trait Head {
    type Row;

    // How many rows are its own.
    ghost taken: { Self → ℕ };

    // What it drafts from them.
    ghost draft: { Self → List Self.Row → Draft };

    // There is one proof at most that a draft has rows enough.
    ghost enough_prop: { (head : Self) (own : List Self.Row) → IsProp (draft head own).enough };

    // A line of rows enough is at least a millimetre long.
    ghost long: { (head : Self) (own : List Self.Row) → Scaled (draft head own) → Sized (draft head own) → 1 ≤ (draft head own).line.len };

    /// How many rows are its own.
    fn taken(&self) -> u32
        ensures { result ≡ taken self.now };

    /// The first question that is answered no of the draft.
    fn first_no(&self, own: &[Self::Row]) -> Option<Question>
        ensures { Found (draft self.now own.now) result };

    // The three below ask that the questions are answered yes; a type of head and rows that keeps it could not be what a head's own method takes.
    /// The length of a line whose questions are answered yes.
    fn length(&self, own: &[Self::Row]) -> i64
        requires { Found (draft self.now own.now) None }
        ensures { result ≡ pos (draft self.now own.now).line.len };

    /// The scale of such a line.
    fn scale(&self, own: &[Self::Row]) -> i64
        requires { Found (draft self.now own.now) None }
        ensures { result ≡ pos (draft self.now own.now).line.scale };

    /// The ordinate of such a line at x.
    fn ordinate(&self, own: &[Self::Row], x: i64) -> i64
        requires { Found (draft self.now own.now) None }
        ensures { result ≡ ordinate_or_zero (draft self.now own.now).line x };
}
