//! The line of a number in a family.
ghost use Rattle.lines.specs.Lines.{line_no};
ghost use Rattle.lines.specs.Mild.{mild};

use crate::family::Family;
use crate::influence_lines::InfluenceLine;

/// A line of a family by its number: one of length 0 with the ordinate 0 where there is none.
#[derive(Clone, Copy)]
pub struct Numbered<'a, F> {
    pub family: &'a F,
    pub number: i32,
}

impl<'a, F: Family> InfluenceLine for Numbered<'a, F> {
    ghost line = { λ s. line_no (F.Family.lines s.family.now) s.number };

    ghost mild = { λ s. mild (F.Family.lines s.family.now) (F.Family.limits s.family.now) s.number };

    fn length(&self) -> i64 {
        self.family.length(self.number)
    }

    fn scale(&self) -> i64 {
        self.family.scale(self.number)
    }

    fn ordinate(&self, x: i64) -> i64 {
        self.family.ordinate(self.number, x)
    }
}
