//! Whether a record is in form, and what it stands for is legal.
ghost use Rattle.std.specs.Prelude.{◌≡◌, ◌≤◌, ◌↔◌, IsTrue, true, map, pos, unsigned_abs};
ghost use Rattle.std.specs.List.{AllByRecursion};
ghost use Rattle.lines.specs.Lines.{Line};
ghost use Rattle.loads.specs.Decks.{heavy, left_side, right_side, past, Within, Apart, heavies, Start, OnBlock, Placed, Legal};
ghost use Rattle.traffic.specs.Records.{lane_of, Unused, blank, InForm, Accepted};

use crate::records::{Code, LaneRecord, Record, Sign};
use loads::carriageways::Carriageway;
use loads::decks::Deck;
use loads::lane_widths::{half_width, past_edge};
use loads::load_sets::{LoadSet, Loads};

fn is_start(a: i32) -> bool
    ensures { IsTrue result ↔ (Start a) }
{
    (-16_000..=100_000).contains(&a)
}

impl LaneRecord {
    fn is_heavy(&self) -> bool
        ensures { (l : Line) (t : Loads) → result ≡ heavy (lane_of l t self.now).load }
    {
        self.code != Code::Light
    }

    fn left(&self) -> i64
        ensures { (l : Line) (t : Loads) → result ≡ left_side (lane_of l t self.now) }
    {
        self.centre as i64 - half_width(self.is_heavy()) as i64
    }

    fn right(&self) -> i64
        ensures { (l : Line) (t : Loads) → result ≡ right_side (lane_of l t self.now) }
    {
        self.centre as i64 + half_width(self.is_heavy()) as i64
    }

    // How far a lane may reach past an edge.
    fn reach(&self, raised: bool) -> i64
        ensures value { (l : Line) (t : Loads) → result ≡ pos (past (heavy (lane_of l t self.now).load) raised) }
        ensures small { unsigned_abs result ≤ 255 }
    {
        past_edge(self.is_heavy(), raised) as i64
    }

    fn is_within(&self, deck: Deck) -> bool
        ensures { (l : Line) (t : Loads) → IsTrue result ↔ (Within deck (lane_of l t self.now)) }
    {
        -self.reach(deck.left) <= self.left()
            && self.right() <= deck.width as i64 + self.reach(deck.right)
    }

    // Whether A lies on the block or its ends.
    fn is_on_block(&self, length: u16) -> bool
        ensures { IsTrue result ↔ (OnBlock self.now.a length self.now.z) }
    {
        self.a <= self.z && self.z as i64 <= self.a as i64 + length as i64
    }

    // Whether a block of so many mm starts where it may, and A lies on it.
    fn has_block(&self, length: u16) -> bool
        ensures { IsTrue result ↔ (Start self.now.a × OnBlock self.now.a length self.now.z) }
    {
        is_start(self.a) && self.is_on_block(length)
    }

    #[tactic(auto, using(crate::proofs::Deciding::off_block))]
    fn is_placed(&self, loads: &Loads) -> bool
        ensures { (l : Line) → IsTrue result ↔ (Placed loads.now (lane_of l loads.now self.now).load) }
    {
        match self.code {
            Code::Light => true,
            Code::Axles(_) => is_start(self.a),
            Code::Vehicle => self.has_block(loads.vehicle.length),
            Code::Train => self.has_block(loads.train.length),
        }
    }

    fn is_blank(&self) -> bool
        ensures { IsTrue result ↔ (self.now ≡ blank) }
    {
        *self == LaneRecord::BLANK
    }

    // Whether each unused field is 0.
    fn is_unused_zero(&self) -> bool
        ensures { IsTrue result ↔ (Unused self.now.code self.now.a self.now.z self.now.sign) }
    {
        match self.code {
            Code::Light => self.a == 0 && self.z == 0,
            Code::Axles(_) => self.z == 0 && self.sign == Sign::None,
            Code::Vehicle => self.sign == Sign::None,
            Code::Train => true,
        }
    }
}

fn all_within(deck: Deck, lanes: &[LaneRecord]) -> bool
    ensures { (l : Line) (t : Loads) → IsTrue result ↔ (AllByRecursion (Within deck) (map (lane_of l t) lanes.now)) }
{
    lanes.iter().all(|x| x.is_within(deck))
}

// Whether each lane ends where the next one begins, or before.
fn are_apart(lanes: &[LaneRecord]) -> bool
    ensures { (l : Line) (t : Loads) → IsTrue result ↔ (Apart (map (lane_of l t) lanes.now)) }
{
    lanes.is_sorted_by(|x, y| x.right() <= y.left())
}

fn count_heavy(lanes: &[LaneRecord]) -> usize
    ensures { (l : Line) (t : Loads) → result ≡ heavies (map (lane_of l t) lanes.now) }
{
    lanes.iter().filter(|x| x.is_heavy()).count()
}

fn all_placed(loads: &Loads, lanes: &[LaneRecord]) -> bool
    ensures { (l : Line) → IsTrue result ↔ (AllByRecursion (λ x. Placed loads.now x.load) (map (lane_of l loads.now) lanes.now)) }
{
    lanes.iter().all(|x| x.is_placed(loads))
}

fn are_legal(loads: &Loads, deck: Deck, lanes: &[LaneRecord]) -> bool
    ensures { (l : Line) → IsTrue result ↔ (Legal loads.now deck (map (lane_of l loads.now) lanes.now)) }
{
    all_within(deck, lanes)
        && are_apart(lanes)
        && count_heavy(lanes) <= 2
        && all_placed(loads, lanes)
}

fn all_unused_zero(lanes: &[LaneRecord]) -> bool
    ensures { IsTrue result ↔ (AllByRecursion (λ x. Unused x.code x.a x.z x.sign) lanes.now) }
{
    lanes.iter().all(|x| x.is_unused_zero())
}

fn all_blank(lanes: &[LaneRecord]) -> bool
    ensures { IsTrue result ↔ (AllByRecursion (λ x. x ≡ blank) lanes.now) }
{
    lanes.iter().all(|x| x.is_blank())
}

fn is_in_form(given: &Record) -> bool
    ensures { IsTrue result ↔ (InForm given.now) }
{
    if given.count > 6 {
        return false;
    }
    let (used, past) = given.lanes.split_at(given.count as usize);
    all_unused_zero(used) && all_blank(past)
}

/// Whether a record is in form and legal. The answer does not hang on the line, though p does.
pub fn legal(set: &LoadSet, carriageway: &Carriageway, given: &Record) -> bool
    ensures decides { (l : Line) → IsTrue result ↔ (Accepted set.now.loads carriageway.now.deck l given.now) }
    ensures few { result ≡ true → given.now.count ≤ 6 }
{
    is_in_form(given)
        && are_legal(
            &set.loads,
            carriageway.deck,
            &given.lanes[..given.count as usize],
        )
}
