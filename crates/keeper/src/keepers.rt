//! The keeper of the worst so far.
ghost use Rattle.std.specs.Prelude.{◌≡◌};
ghost use Rattle.keeper.specs.Order.{further_of};

use crate::senses::Sense;
use std::marker::PhantomData;

/// The sum that went furthest so far, and its place: a place in a lane, or a layout across the deck.
#[derive_where(Clone, Copy; P)]
pub struct Keeper<S, P> {
    pub sum: i64,
    pub place: P,
    sense: PhantomData<S>,
}

impl<S: Sense, P: Drop> Keeper<S, P> {
    /// A keeper that holds the first sum.
    pub fn new(sum: i64, place: P) -> Keeper<S, P>
        ensures sum { result.sum ≡ sum }
        ensures place { result.place ≡ place }
    {
        Keeper {
            sum,
            place,
            sense: PhantomData,
        }
    }

    /// Takes a sum that goes further; of equals the first is kept.
    pub fn offer(&mut self, sum: i64, place: P)
        ensures sum { self.new.sum ≡ further_of S.beyond sum self.old.sum sum self.old.sum }
        ensures place { self.new.place ≡ further_of S.beyond sum self.old.sum place self.old.place }
    {
        if S::further(sum, self.sum) {
            self.sum = sum;
            self.place = place;
        }
    }
}
