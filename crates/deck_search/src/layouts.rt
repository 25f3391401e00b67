//! Layouts of lanes across a carriageway.
ghost use Rattle.std.specs.Prelude.{◌≡◌, ◌+◌, ◌<◌, ◌≤◌, ◌∷◌, length};

/// A lane by its kind and centre, without its load.
#[derive(Clone, Copy, Debug, PartialEq, Eq)]
pub struct Slot {
    pub heavy: bool,
    pub centre: u8,
}

/// The first `count` of six slots, from left to right.
// A fixed array and its count, since nothing here allocates and keepers copy layouts.
#[derive(Clone, Copy)]
pub struct Layout {
    pub count: u8,
    pub slots: [Slot; 6],
    ghost few: { count ≤ 6 },
}

impl Layout {
    ghost use Rattle.deck_search.specs.Layouts.{slots_of};

    pub(crate) const NO_LANES: Layout = Layout {
        count: 0,
        slots: [Slot {
            heavy: false,
            centre: 0,
        }; 6],
    };

    /// The slots of its lanes, from left to right.
    pub fn slots(&self) -> &[Slot]
        ensures slots { result.now ≡ slots_of self.now }
        ensures count { length result.now ≡ self.now.count }
    {
        &self.slots[..usize::from(self.count)]
    }

    // The layout with one more slot, left of the others.
    #[tactic(auto, using(crate::proofs::Six::led))]
    pub(crate) fn led_by(self, slot: Slot) -> Layout
        requires { self.count < 6 }
        ensures slots { slots_of result ≡ slot ∷ slots_of self }
        ensures count { result.count ≡ self.count + 1 }
    {
        let [a, b, c, d, e, _] = self.slots;
        Layout {
            count: self.count + 1,
            slots: [slot, a, b, c, d, e],
        }
    }
}
