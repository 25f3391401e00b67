//! The maker of carriageways.
ghost use Rattle.std.specs.Prelude.{◌≡◌, ◌++◌, Some, codes, ◌≤◌, pos, if◌then◌else◌, unsigned_abs};
ghost use Rattle.std.specs.Fmt.{decimal};
ghost use Rattle.loads.specs.Widths.{width_number, Widened};

use crate::carriageways::{Carriageway, WidthQuestion};
use crate::decks::Deck;
use std::error::Error;
use std::fmt;

/// The number that a refusal tells.
impl From<WidthQuestion> for u8 {
    ghost from_gives = { λ question number. number ≡ width_number question };

    fn from(question: WidthQuestion) -> u8 {
        match question {
            WidthQuestion::Widest => 1,
            WidthQuestion::Narrowest => 2,
        }
    }
}

// As for shares, since an impl is of one type, and none here is written by a macro.
impl fmt::Display for WidthQuestion {
    ghost output = { λ question. Some (codes "question " ++ decimal (width_number question)) };

    fn fmt<W: fmt::Write>(&self, f: &mut fmt::Formatter<W>) -> fmt::Result {
        write!(f, "question {}", u8::from(*self))
    }
}

impl Error for WidthQuestion {}

impl Carriageway {
    /// A carriageway of this clear width in dm, or the first question that is answered no.
    pub fn new(width: i32, left: bool, right: bool) -> Result<Carriageway, WidthQuestion>
        ensures { Widened width left right result }
    {
        if width > 120 {
            return Err(WidthQuestion::Widest);
        }
        let edges = edge(left) + edge(right);
        if width < 30 - edges {
            return Err(WidthQuestion::Narrowest);
        }
        Ok(Carriageway {
            deck: Deck {
                width: width as u8,
                left,
                right,
            },
        })
    }
}

// What a raised edge adds to the width.
fn edge(raised: bool) -> i32
    ensures value { result ≡ pos (if raised then 2 else 0) }
    ensures small { unsigned_abs result ≤ 2 }
{
    if raised { 2 } else { 0 }
}
