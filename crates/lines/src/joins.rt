//! Two families as one.
ghost use Rattle.std.specs.Prelude.{◌≡◌};
ghost use Rattle.lines.specs.Lines.{line_no};
ghost use Rattle.lines.specs.Joins.{joined_lines, joined_limits};
ghost use Rattle.lines.specs.Parts.{line_of};

use crate::family::Family;
use crate::parts::Part;

/// The most lines that a family may have.
const MOST: i32 = 65_535;

/// The lines of the first family, then those of the second as far as 65,535 in all.
#[derive(Clone, Copy)]
pub struct Joined<F, G> {
    pub first: F,
    pub second: G,
}

impl<F: Family, G: Family> Joined<F, G> {
    fn part(&self, line: i32) -> Option<Part>
        ensures { line_no (joined_lines (F.Family.lines self.now.first) (G.Family.lines self.now.second)) line ≡ line_of (F.Family.lines self.now.first) (G.Family.lines self.now.second) result }
    {
        let n = self.first.count();
        if line < n {
            Some(Part::First(line))
        } else if line < MOST {
            Some(Part::Second(line - n))
        } else {
            None
        }
    }
}

impl<F: Family, G: Family> Family for Joined<F, G> {
    ghost lines = { λ s. joined_lines (F.Family.lines s.first) (G.Family.lines s.second) };

    ghost limits = { λ s. joined_limits (F.Family.lines s.first) (G.Family.lines s.second) (F.Family.limits s.first) (G.Family.limits s.second) };

    fn count(&self) -> i32 {
        (self.first.count() + self.second.count()).min(MOST)
    }

    // Each answer is asked of one of two types, so no closure serves all three.
    fn length(&self, line: i32) -> i64 {
        match self.part(line) {
            Some(Part::First(i)) => self.first.length(i),
            Some(Part::Second(i)) => self.second.length(i),
            None => 0,
        }
    }

    fn scale(&self, line: i32) -> i64 {
        match self.part(line) {
            Some(Part::First(i)) => self.first.scale(i),
            Some(Part::Second(i)) => self.second.scale(i),
            None => 0,
        }
    }

    fn ordinate(&self, line: i32, x: i64) -> i64 {
        match self.part(line) {
            Some(Part::First(i)) => self.first.ordinate(i, x),
            Some(Part::Second(i)) => self.second.ordinate(i, x),
            None => 0,
        }
    }
}
