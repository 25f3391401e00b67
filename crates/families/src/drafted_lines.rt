//! The family of the lines that heads draft from rows.
ghost use Rattle.std.specs.Prelude.{◌≡◌, ℕ, ◌≤◌, ⊤, [], None, IfSome, IfNone, Result as Either};
ghost use Rattle.lines.specs.Asks.{AllYes};
ghost use Rattle.lines.specs.Lines.{line_no, no_line};
ghost use Rattle.families.specs.declared.questions.Refusal.{Refusal as Told};
ghost use Rattle.families.specs.Drafts.{Found, Tells, drafted_lines, questions};
ghost use Rattle.families.specs.DraftLimits.{AllYes-prop, limits_of_yes};
ghost use Rattle.families.specs.Places.{Placed};

use crate::check::{ask, rows_of};
use crate::head::Head;
use crate::questions::Refusal;
use lines::family::Family;
use std::alloc::AllocError;

// The place of a line's number among n lines. By two tests, since a call asks it each time and `try_from` takes longer.
fn place_of(line: i32, n: usize) -> Option<usize>
    ensures { Placed n line result }
{
    if 0 <= line && (line as usize) < n {
        Some(line as usize)
    } else {
        None
    }
}

/// Lines that are drafted by heads, each from rows of its own, over memory that the caller holds.
pub struct DraftedLines<'a, T: Head> {
    heads: &'a [T],
    rows: &'a [T::Row],
    // Every question is answered yes.
    ghost right: { AllYes (questions T.taken T.draft heads.now rows.now) } by { AllYes-prop T.taken T.draft T.enough_prop heads.now rows.now },
}

// By hand: neither `derive` nor `derive_where`, which were tried, takes `Clone` beside this ghost field.
impl<'a, T: Head> Copy for DraftedLines<'a, T> {}

impl<'a, T: Head> Clone for DraftedLines<'a, T> {
    ghost is_clone = { λ this copy. copy ≡ this };

    ghost is_infallible = { λ _. ⊤ };

    fn clone(&self) -> Result<Self, AllocError> {
        Ok(*self)
    }
}

impl<'a, T: Head> DraftedLines<'a, T> {
    /// Asks the questions in their order, and tells the first no.
    pub fn check(heads: &[T], rows: &[T::Row]) -> Result<(), Refusal>
        ensures told { Tells (questions T.taken T.draft heads.now rows.now) result }
        ensures only { (a : Either (Unit {0}) Told)
            → Tells (questions T.taken T.draft heads.now rows.now) a → a ≡ result }
    {
        ask(heads, rows)
    }

    /// The family of these lines; one without lines where a question is answered no.
    pub fn make(heads: &'a [T], rows: &'a [T::Row]) -> DraftedLines<'a, T>
        ensures right { AllYes (questions T.taken T.draft heads.now rows.now)
            → drafted_lines T.taken T.draft result.heads.now result.rows.now
            ≡ drafted_lines T.taken T.draft heads.now rows.now }
        ensures wrong { (AllYes (questions T.taken T.draft heads.now rows.now) → ⊥)
            → drafted_lines T.taken T.draft result.heads.now result.rows.now ≡ [] }
    {
        match Self::check(heads, rows) {
            Ok(()) => Self::with(heads, rows),
            Err(_) => Self::with(&[], &[]),
        }
    }

    // The family of lines whose questions are answered yes.
    fn with(heads: &'a [T], rows: &'a [T::Row]) -> DraftedLines<'a, T>
        requires { AllYes (questions T.taken T.draft heads.now rows.now) }
        ensures { drafted_lines T.taken T.draft result.heads.now result.rows.now
            ≡ drafted_lines T.taken T.draft heads.now rows.now }
    {
        DraftedLines { heads, rows }
    }

    // The head of a line's number, and its rows.
    fn find(&self, line: i32) -> Option<(&'a T, &'a [T::Row])>
        ensures found { IfSome result (λ p. Found (T.draft p.0.now p.1.now) None) }
        ensures drafted { IfSome result (λ p. line_no (drafted_lines T.taken T.draft self.now.heads.now self.now.rows.now) line
            ≡ (T.draft p.0.now p.1.now).line) }
        ensures absent { IfNone result
            (line_no (drafted_lines T.taken T.draft self.now.heads.now self.now.rows.now) line ≡ no_line) }
    {
        let i = place_of(line, self.heads.len())?;
        let head = &self.heads[i];
        let at = rows_of(&self.heads[..i]) as usize;
        Some((head, &self.rows[at..at + head.taken() as usize]))
    }
}

impl<'a, T: Head> Family for DraftedLines<'a, T> {
    ghost lines = { λ s. drafted_lines T.taken T.draft s.heads.now s.rows.now };

    ghost limits = { λ s. limits_of_yes T.taken T.draft s.heads.now s.rows.now T.long s.right };

    fn count(&self) -> i32 {
        self.heads.len() as i32
    }

    fn length(&self, line: i32) -> i64 {
        self.find(line).map_or(0, |(head, own)| head.length(own))
    }

    fn scale(&self, line: i32) -> i64 {
        self.find(line).map_or(0, |(head, own)| head.scale(own))
    }

    fn ordinate(&self, line: i32, x: i64) -> i64 {
        self.find(line)
            .map_or(0, |(head, own)| head.ordinate(own, x))
    }
}
