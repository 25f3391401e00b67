//! The questions in their order, and the rows of heads.
ghost use Rattle.std.specs.Prelude.{◌≡◌, ℕ, ◌+◌, ◌≤◌, length, take, drop, Decides, sum_by};
ghost use Rattle.families.specs.Drafts.{Counted, Tells, questions};

use crate::head::Head;
use crate::questions::{Question, Refusal};

// How many rows heads take, at most 16 of them.
pub(crate) fn rows_of<T: Head>(heads: &[T]) -> u64
    requires { length heads.now ≤ 16 }
    ensures { result ≡ sum_by T.taken heads.now }
{
    let mut sum = 0;
    for head in heads {
        sum += u64::from(head.taken());
    }
    sum
}

// Heads and rows are two parameters until they are checked, since no type can say more of them before.
// Whether there are at most 16 heads and their counts add up to the rows.
fn adds_up<T: Head>(heads: &[T], rows: &[T::Row]) -> bool
    ensures { Decides result (Counted T.taken heads.now rows.now) }
{
    heads.len() <= 16 && rows_of(heads) == rows.len() as u64
}

// The questions in their order, and the first no.
pub(crate) fn ask<T: Head>(heads: &[T], rows: &[T::Row]) -> Result<(), Refusal>
    ensures { Tells (questions T.taken T.draft heads.now rows.now) result }
{
    if !adds_up(heads, rows) {
        return Err(Refusal {
            question: Question::Rows,
            head: 0,
        });
    }
    let mut rest = rows;
    for (i, head) in heads.iter().enumerate() {
        let (own, more) = rest.split_at(head.taken() as usize);
        if let Some(question) = head.first_no(own) {
            return Err(Refusal {
                question,
                head: i as u32,
            });
        }
        rest = more;
    }
    Ok(())
}
