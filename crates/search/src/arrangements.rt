//! The search for the worst arrangement.
ghost use Rattle.std.specs.Prelude.{ℤ};
ghost use Rattle.lines.specs.Lines.{Line, line_no};
ghost use Rattle.loads.specs.declared.load_sets.Loads.{Loads};
ghost use Rattle.loads.specs.Shares.{listed};
ghost use Rattle.lane_search.specs.Readings.{line_read, Alike};
ghost use Rattle.search.specs.Fillings.{Furthest};
ghost use Rattle.search.specs.Findings.{Found, Reached};

use crate::directions::Direction;
use crate::fillings::Filling;
use deck_search::layout_search::worst_layout;
use keeper::senses::{Down, Sense, Up};
use lane_search::reaches::furthest_loads;
use lane_search::samples::Sample;
use lines::family::Family;
use lines::numbered::Numbered;
use loads::carriageways::Carriageway;
use loads::load_sets::LoadSet;
use loads::shares::Shares;
use traffic::records::Record;

// Of all legal arrangements the one whose sum goes furthest, from the furthest loads of a lane that way and the other way; on any line and for any load set that they are the furthest of.
fn across<S: Sense, O>(
    carriageway: &Carriageway,
    filling: &Filling<S, O>,
    found: &mut Record,
) -> (i64, u8)
    ensures { (l : Line) (t : Loads) → Furthest S.beyond l t filling.now.on.now → Furthest (λ (a b : ℤ). S.beyond b a) l t filling.now.back.now → Reached S.beyond t carriageway.now.deck l (listed filling.now.shares.now) result.0 result.1 found.new }
{
    let worst = worst_layout::<S>(carriageway, &filling.worths());
    filling.write(&worst.place, found);
    (worst.sum, worst.place.count)
}

// The arrangement goes into the caller's record, since nothing here allocates; the answer is its sum and its number of lanes.
/// The worst legal arrangement on a line of a family, upwards or downwards: its sum and its number of lanes; the arrangement is written into `found`.
pub fn worst<F: Family>(
    family: &F,
    line: i32,
    set: &LoadSet,
    carriageway: &Carriageway,
    shares: &Shares,
    direction: Direction,
    found: &mut Record,
) -> (i64, u8)
    ensures { Found direction set.now.loads carriageway.now.deck (line_no (F.lines family.now) line) (listed shares.now) result.0 result.1 found.new }
{
    let sample = Sample::of(&Numbered {
        family,
        number: line,
    });
    let up = furthest_loads::<Up>(&sample, set);
    let down = furthest_loads::<Down>(&sample, set);
    // A caller has the direction as a value; inside it is a type, and here the one becomes the other.
    match direction {
        Direction::Up => {
            let filling = Filling {
                shares,
                on: &up,
                back: &down,
            };
            across(carriageway, &filling, found)
        }
        Direction::Down => {
            let filling = Filling {
                shares,
                on: &down,
                back: &up,
            };
            across(carriageway, &filling, found)
        }
    }
}

/// The worst legal arrangements upwards and downwards on a line that was read before: the sum and the number of lanes of each; the arrangements are written into `up` and `down`. It holds of each line with the length and the ordinates that were read.
pub fn worst_each_way(
    sample: &Sample,
    set: &LoadSet,
    carriageway: &Carriageway,
    shares: &Shares,
    up: &mut Record,
    down: &mut Record,
) -> ((i64, u8), (i64, u8))
    ensures up { (l : Line) → Alike (line_read sample.now) l → Found Direction.Up set.now.loads carriageway.now.deck l (listed shares.now) result.0.0 result.0.1 up.new }
    ensures down { (l : Line) → Alike (line_read sample.now) l → Found Direction.Down set.now.loads carriageway.now.deck l (listed shares.now) result.1.0 result.1.1 down.new }
{
    let rising = furthest_loads::<Up>(sample, set);
    let falling = furthest_loads::<Down>(sample, set);
    let upwards = Filling {
        shares,
        on: &rising,
        back: &falling,
    };
    let downwards = Filling {
        shares,
        on: &falling,
        back: &rising,
    };
    let most = across(carriageway, &upwards, up);
    let least = across(carriageway, &downwards, down);
    (most, least)
}
