//! The questions that heads and rows are asked before they are influence lines.
ghost use Rattle.std.specs.Prelude.{◌≡◌, Some};
ghost use Rattle.families.specs.Drafts.{number_of};
ghost use Rattle.families.specs.Refusals.{refusal_text};

use std::error::Error;
use std::fmt;

/// A question, in the order in which they are asked.
#[derive(Clone, Copy, Debug, PartialEq, Eq)]
pub enum Question {
    /// Are there at most 16 heads, and do their counts add up to the rows given?
    Rows,
    /// Is the step or scale from 1 to 1,000?
    Scale,
    /// Are there at least two stations, or one run, no run shorter than 1, and is the line at most 100,000 long?
    Length,
    /// Does every ordinate keep its limits?
    Ordinates,
}

/// The number that a refusal tells.
impl From<Question> for u32 {
    ghost from_gives = { λ question number. number ≡ number_of question };

    fn from(question: Question) -> u32 {
        match question {
            Question::Rows => 16,
            Question::Scale => 17,
            Question::Length => 18,
            Question::Ordinates => 19,
        }
    }
}

/// The first question that is answered no, and the head that it was asked of (0 for `Rows`).
// A refusal tells two numbers, the second 0 where no head is to blame, so an `Option` would be no plainer.
#[derive(Clone, Copy, Debug, PartialEq, Eq)]
pub struct Refusal {
    pub question: Question,
    pub head: u32,
}

impl fmt::Display for Refusal {
    ghost output = { λ refusal. Some (refusal_text refusal) };

    fn fmt<W: fmt::Write>(&self, f: &mut fmt::Formatter<W>) -> fmt::Result {
        let number = u32::from(self.question);
        let head = self.head;
        write!(f, "question {number} at head {head}")
    }
}

impl Error for Refusal {}
