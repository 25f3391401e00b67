//! The sums over the first cells of a line.
ghost use Rattle.std.specs.Prelude.{◌≡◌, ◌≤◌, pos, ◌+ℤ◌, if◌then◌else◌, unsigned_abs};

use crate::windows::further_of;
use keeper::senses::Sense;

/// The double areas of the first cells of a line: of all of them, and of those that help.
#[derive(Clone, Copy)]
pub(crate) struct Total {
    pub area: i64,
    pub help: i64,
}

// What a cell adds to those that help: its double area, if it goes further than 0.
fn help_of<S: Sense>(area: i64) -> i64
    requires { unsigned_abs area ≤ 2000000 }
    ensures value { result ≡ (if S.beyond area (pos 0) then area else pos 0) }
    ensures small { unsigned_abs result ≤ 2000000 }
{
    further_of::<S>(area, 0)
}

impl Total {
    // The same with one more cell.
    pub(crate) fn with<S: Sense>(self, area: i64) -> Total
        requires area { unsigned_abs area ≤ 2000000 }
        requires areas { unsigned_abs self.area ≤ 200000000000 }
        requires helps { unsigned_abs self.help ≤ 200000000000 }
        ensures area { result.area ≡ self.area +ℤ area }
        ensures help { result.help ≡ self.help +ℤ (if S.beyond area (pos 0) then area else pos 0) }
    {
        Total {
            area: self.area + area,
            help: self.help + help_of::<S>(area),
        }
    }
}
