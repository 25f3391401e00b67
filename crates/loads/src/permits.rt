//! The permitted classes of a member.
ghost use Rattle.std.specs.Prelude.{List, ℤ};
ghost use Rattle.lines.specs.Lines.{Line};
ghost use Rattle.loads.specs.declared.decks.Deck.{Deck as Road};
ghost use Rattle.loads.specs.declared.strengths.Figures.{Figures as Strength};
ghost use Rattle.loads.specs.declared.classes.Class.TheVariants.{Bk6, Bk8, BkT8, Bk10};
ghost use Rattle.loads.specs.Sums.{Settled, IsClass, number_of};

use crate::classes::Class;

/// A member's class by which classes overload it: the highest of which neither it nor any class below it does.
pub fn class_of(bk6: bool, bk8: bool, bkt8: bool, bk10: bool) -> Option<Class>
    ensures { (w : Road) (l : Line) (f : Strength) (ss : List ℤ) → Settled w l f ss Bk6 bk6 → Settled w l f ss Bk8 bk8 → Settled w l f ss BkT8 bkt8 → Settled w l f ss Bk10 bk10 → IsClass w l f ss (number_of result) }
{
    if bk6 {
        None
    } else if bk8 {
        Some(Class::Bk6)
    } else if bkt8 {
        Some(Class::Bk8)
    } else if bk10 {
        Some(Class::BkT8)
    } else {
        Some(Class::Bk10)
    }
}
