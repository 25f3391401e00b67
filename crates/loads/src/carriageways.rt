//! Carriageways.
ghost use Rattle.std.specs.Prelude.{◌+◌, ◌≤◌, if◌then◌else◌};

use crate::decks::Deck;

/// A carriageway that is neither too wide nor too narrow.
#[derive(Clone, Copy)]
pub struct Carriageway {
    pub deck: Deck,
    ghost widest: { deck.width ≤ 120 },
    ghost narrowest: { 30 ≤ deck.width + (if deck.left then 2 else 0) + (if deck.right then 2 else 0) },
}

/// A question that a carriageway is asked.
#[derive(Clone, Copy, Debug, PartialEq, Eq)]
pub enum WidthQuestion {
    /// Is the clear width at most 120?
    Widest,
    /// Is the clear width, and 2 for each raised edge, at least 30?
    Narrowest,
}
