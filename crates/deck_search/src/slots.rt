//! One slot: whether it keeps within the carriageway, and what it adds.
ghost use Rattle.std.specs.Prelude.{◌≡◌, ◌≤◌, unsigned_abs};
ghost use Rattle.deck_search.specs.Layouts.{worth};
ghost use Rattle.deck_search.specs.Rooms.{keeps};

use crate::layouts::Slot;
use crate::worths::Worths;
use loads::decks::Deck;
use loads::lane_widths::{half_width, past_edge};

impl Slot {
    // Whether a lane there keeps within the width that it may use. The same rule is asked of a record in wider numbers, since its centre may be any; here a byte holds the centre.
    pub(crate) fn fits(self, deck: Deck) -> bool
        ensures { result ≡ keeps deck self }
    {
        let half = u16::from(half_width(self.heavy));
        let centre = u16::from(self.centre);
        half <= centre + u16::from(past_edge(self.heavy, deck.left))
            && centre + half <= u16::from(deck.width) + u16::from(past_edge(self.heavy, deck.right))
    }

    // What a lane there adds to the sum.
    pub(crate) fn worth(self, worths: &Worths) -> i64
        requires { self.centre ≤ 120 }
        ensures value { result ≡ worth worths.now self }
        ensures small { unsigned_abs result ≤ 33000000000000000 }
    {
        let worth = worths.by_centre[usize::from(self.centre)];
        if self.heavy { worth.heavy } else { worth.light }
    }
}
