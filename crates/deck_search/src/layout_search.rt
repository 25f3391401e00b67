//! The search for the layout whose sum goes furthest, from right to left over where the next lane may begin.
ghost use Rattle.std.specs.Prelude.{◌≡◌, ◌+◌, ◌-◌, ◌<◌, ◌≤◌, ◌∷◌, ◌+ℤ◌, unsigned_abs};
ghost use Rattle.keeper.specs.Worst.{Worst};
ghost use Rattle.loads.specs.Decks.{half};
ghost use Rattle.deck_search.specs.Layouts.{worth, total, slots_of, LegalLayout};
ghost use Rattle.deck_search.specs.Rooms.{Stand, tried_of, Cell, Row};

use crate::layouts::{Layout, Slot};
use crate::worths::Worths;
use keeper::keepers::Keeper;
use keeper::senses::Sense;
use loads::carriageways::Carriageway;
use loads::decks::Deck;

// What a search goes by: the width that lanes may use, and what each adds.
#[derive(Clone, Copy)]
struct Search<'a> {
    deck: Deck,
    worths: &'a Worths,
    ghost widest: { deck.width ≤ 120 },
}

impl Search<'_> {
    // Offers the layout that begins with `slot` and goes on as `rest`, if the slot keeps within the carriageway.
    fn try_slot<S: Sense>(
        &self,
        so_far: Keeper<S, Layout>,
        slot: Slot,
        rest: Keeper<S, Layout>,
    ) -> Keeper<S, Layout>
        requires right { Stand self.now.deck (slot.centre + 2 + half slot.heavy) (slots_of rest.place) }
        requires reached { rest.sum ≡ total self.now.worths.now (slots_of rest.place) }
        ensures sum { result.sum ≡ tried_of S.beyond self.now.deck self.now.worths.now slot rest.sum so_far.sum (rest.sum +ℤ worth self.now.worths.now slot) so_far.sum }
        ensures place { slots_of result.place ≡ tried_of S.beyond self.now.deck self.now.worths.now slot rest.sum so_far.sum (slot ∷ slots_of rest.place) (slots_of so_far.place) }
    {
        if !slot.fits(self.deck) {
            return so_far;
        }
        let mut worst = so_far;
        worst.offer(rest.sum + slot.worth(self.worths), rest.place.led_by(slot));
        worst
    }

    // The worst layout right of `s`, in dm from 2 left of the clear width, with at most `most` heavy lanes: from the worst right of the next place, and right of the light and the heavy lane that begin at `s`.
    fn cell<S: Sense>(
        &self,
        most: u8,
        s: u8,
        next: Keeper<S, Layout>,
        past_light: Keeper<S, Layout>,
        past_heavy: Keeper<S, Layout>,
    ) -> Keeper<S, Layout>
        requires near { s ≤ 102 }
        requires next { Cell S.beyond self.now.deck self.now.worths.now most (s + 1) next.sum next.place }
        requires past_light { Cell S.beyond self.now.deck self.now.worths.now most (s + 20) past_light.sum past_light.place }
        requires past_heavy { 0 < most → Cell S.beyond self.now.deck self.now.worths.now (most - 1) (s + 30) past_heavy.sum past_heavy.place }
        ensures { Cell S.beyond self.now.deck self.now.worths.now most s result.sum result.place }
    {
        let light = Slot {
            heavy: false,
            centre: s + 8,
        };
        let worst = self.try_slot(next, light, past_light);
        if most == 0 {
            return worst;
        }
        let heavy = Slot {
            heavy: true,
            centre: s + 13,
        };
        self.try_slot(worst, heavy, past_heavy)
    }

    // The worst layout right of each place, with at most `most` heavy lanes, from those with one heavy lane fewer. No lane begins right of 102.
    fn row<S: Sense>(&self, most: u8, fewer: &[Keeper<S, Layout>; 133]) -> [Keeper<S, Layout>; 133]
        requires { 0 < most → Row S.beyond self.now.deck self.now.worths.now (most - 1) 0 fewer.now }
        ensures { Row S.beyond self.now.deck self.now.worths.now most 0 result }
    {
        let mut cells = [Keeper::new(0, Layout::NO_LANES); 133];
        // By index: each cell is made of two that were made before it, and of one of the other row.
        for s in (0..103u8).rev() {
            let at = usize::from(s);
            cells[at] = self.cell(most, s, cells[at + 1], cells[at + 20], fewer[at + 30]);
        }
        cells
    }
}

/// Of all legal layouts of lanes across the carriageway, the one whose total goes furthest.
pub fn worst_layout<S: Sense>(carriageway: &Carriageway, worths: &Worths) -> Keeper<S, Layout>
    ensures worst { Worst S.beyond (total worths.now) (LegalLayout carriageway.now.deck) result.sum (slots_of result.place) }
    ensures small { unsigned_abs result.sum ≤ 198000000000000000 }
{
    let search = Search {
        deck: carriageway.deck,
        worths,
    };
    let mut cells = [Keeper::new(0, Layout::NO_LANES); 133];
    for most in 0..3 {
        cells = search.row(most, &cells);
    }
    cells[0]
}
