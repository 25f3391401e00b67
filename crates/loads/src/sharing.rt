//! The maker of shares, and the share at a centre.
ghost use Rattle.std.specs.Prelude.{◌≡◌, ◌++◌, Some, codes, ℕ, ◌+◌, ◌≤◌, length, Decides, unsigned_abs};
ghost use Rattle.std.specs.Fmt.{decimal};
ghost use Rattle.loads.specs.Shares.{share_number, listed, FairShares, Shared};
ghost use Rattle.loads.specs.Sums.{share};

use crate::carriageways::Carriageway;
use crate::shares::{ShareQuestion, Shares};
use std::error::Error;
use std::fmt;

/// The number that a refusal tells.
impl From<ShareQuestion> for u8 {
    ghost from_gives = { λ question number. number ≡ share_number question };

    fn from(question: ShareQuestion) -> u8 {
        match question {
            ShareQuestion::Count => 7,
            ShareQuestion::Size => 8,
        }
    }
}

impl fmt::Display for ShareQuestion {
    ghost output = { λ question. Some (codes "question " ++ decimal (share_number question)) };

    fn fmt<W: fmt::Write>(&self, f: &mut fmt::Formatter<W>) -> fmt::Result {
        write!(f, "question {}", u8::from(*self))
    }
}

impl Error for ShareQuestion {}

fn are_fair(given: &[i32]) -> bool
    ensures { Decides result (FairShares given.now) }
{
    given.iter().all(|percent| (-100..=100).contains(percent))
}

fn kept(width: u8, given: &[i32]) -> Shares
    requires few { width ≤ 120 }
    requires each { length given.now ≡ width + 1 }
    requires fair { FairShares given.now }
    ensures width { result.width ≡ width }
    ensures listed { listed result ≡ given.now }
{
    let mut percents = [0i32; 121];
    percents[..given.len()].copy_from_slice(given);
    Shares { width, percents }
}

impl Shares {
    /// These shares for a carriageway, or the first question that is answered no.
    pub fn new(carriageway: &Carriageway, given: &[i32]) -> Result<Shares, ShareQuestion>
        ensures { Shared carriageway.now.deck.width given.now result }
    {
        let width = carriageway.deck.width;
        if given.len() != width as usize + 1 {
            return Err(ShareQuestion::Count);
        }
        if !are_fair(given) {
            return Err(ShareQuestion::Size);
        }
        Ok(kept(width, given))
    }

    /// The share at a centre, and 0 where none is given.
    pub fn at(&self, centre: i32) -> i64
        ensures value { result ≡ share (listed self.now) centre }
        ensures small { unsigned_abs result ≤ 100 }
    {
        match usize::try_from(centre) {
            Ok(k) if k <= self.width as usize => self.percents[k] as i64,
            _ => 0,
        }
    }
}
