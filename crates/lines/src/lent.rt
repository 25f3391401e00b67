//! A family that is lent is a family.
ghost use Rattle.std.specs.Prelude.{◌≡◌};

use crate::family::Family;

impl<'a, F: Family> Family for &'a F {
    ghost lines = { λ s. F.Family.lines s.now };

    ghost limits = { λ s. F.Family.limits s.now };

    fn count(&self) -> i32 {
        F::count(*self)
    }

    fn length(&self, line: i32) -> i64 {
        F::length(*self, line)
    }

    fn scale(&self, line: i32) -> i64 {
        F::scale(*self, line)
    }

    fn ordinate(&self, line: i32, x: i64) -> i64 {
        F::ordinate(*self, line, x)
    }
}
