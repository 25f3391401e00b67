//! Weighs each figure that was worked out by hand on the tooth, a line of ordinates 0 1 2 1 0,
//! and prints what it weighed, what came out and what was expected; then some widths.
#![tactic(auto)]

mod hand;

use families::rows::{Run, RunHead};
use families::runs::Runs;
use hand::{Figure, Found, Shown, figures};
use lines::influence_lines::InfluenceLine;
use lines::numbered::Numbered;
use loads::carriageways::Carriageway;
use loads::classes::Class;
use loads::shares::Shares;
use std::io;
use traffic::figures::hand_figures;
use traffic::legal::legal;
use traffic::records::Record;
use traffic::sums::traffic_sum;

const HEADS: [RunHead; 1] = [RunHead { scale: 1, runs: 2 }];

const TOOTH: [Run; 2] = [
    Run { length: 2, rise: 1 },
    Run {
        length: 2,
        rise: -1,
    },
];

// The traffic sum of Bk 10 with share 100 at each centre; none where the record is refused.
fn weighed<L: InfluenceLine>(tooth: &L, carriageway: &Carriageway, given: &Record) -> Option<i64> {
    let percents = [100i32; 121];
    let n = carriageway.deck.width as usize + 1;
    let shares = Shares::new(carriageway, &percents[..n]).ok()?;
    traffic_sum(tooth, &Class::Bk10.load_set(), carriageway, &shares, given)
}

// The carriageway and each lane are written one by one, so that output that breaks off ends after a whole one.
fn print_figure(rt: &impl Print, figure: &Figure) -> io::Result<()> {
    print!(rt; "{figure}")?;
    for lane in figure.given.lanes.iter().take(figure.given.count as usize) {
        print!(rt; " {}", Shown(lane))?;
    }
    Ok(())
}

fn weigh<L: InfluenceLine>(rt: &impl Print, tooth: &L, figure: &Figure) -> io::Result<()> {
    print_figure(rt, figure)?;
    let Ok(carriageway) = Carriageway::new(figure.width, figure.left, figure.right) else {
        return println!(rt; " no carriageway");
    };
    let sum = weighed(tooth, &carriageway, &figure.given);
    let is_legal = legal(&Class::Bk10.load_set(), &carriageway, &figure.given);
    match (sum, figure.found) {
        (Some(q), Found::Sum(expected)) => println!(rt; " sum {q}, expected {expected}"),
        (_, Found::Sum(expected)) => println!(rt; " refused, expected {expected}"),
        (_, Found::Legal) => println!(rt; " legal {is_legal}, expected true"),
        (_, Found::Illegal) => println!(rt; " legal {is_legal}, expected false"),
    }
}

fn try_width(rt: &impl Print, width: i32, raised: bool) -> io::Result<()> {
    match Carriageway::new(width, raised, raised) {
        Ok(_) => println!(rt; "W {width} raised {raised} {raised}: a carriageway"),
        Err(question) => println!(rt; "W {width} raised {raised} {raised}: none, {question}"),
    }
}

fn main(rt: HostRuntime) -> io::Result<()> {
    let family = Runs::make(&HEADS, &TOOTH);
    let tooth = Numbered {
        family: &family,
        number: 0,
    };
    let count = hand_figures();
    println!(rt; "{count} figures for Bk 10 on the tooth, share 100")?;
    for figure in figures().iter() {
        weigh(&rt, &tooth, figure)?;
    }
    for width in [26, 25] {
        try_width(&rt, width, true)?;
    }
    for width in [30, 29, 120, 121, -1] {
        try_width(&rt, width, false)?;
    }
    try_width(&rt, 121, true)
}
