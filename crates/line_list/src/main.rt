//! Makes influence lines of a small bridge from figures that stand here, joins them and lists each;
//! then shows what is refused.
#![tactic(auto)]

mod figures;

use families::runs::Runs;
use families::stations::Stations;
use figures::{GAP, NO_STEP, ORDINATES, PEAK, RUN_HEADS, RUNS, STATION_HEADS};
use lines::areas::double_areas;
use lines::family::Family;
use lines::influence_lines::InfluenceLine;
use lines::joins::Joined;
use lines::numbered::Numbered;
use std::io;

fn list_line<F: Family>(rt: &impl Print, line: &Numbered<'_, F>) -> io::Result<()> {
    let number = line.number;
    let n = line.length();
    let scale = line.scale();
    println!(rt; "line {number}: length {n} mm, scale {scale}")?;
    for x in [0, n / 4, n / 2, n - n / 4, n] {
        let y = line.ordinate(x);
        println!(rt; "  ordinate at {x}: {y}")?;
    }
    let area = double_areas(line, 0, n as u32);
    println!(rt; "  whole double area {area}")
}

fn list_lines<F: Family>(rt: &impl Print, family: &F) -> io::Result<()> {
    let count = family.count();
    println!(rt; "{count} lines")?;
    for number in 0..count {
        list_line(rt, &Numbered { family, number })?;
    }
    Ok(())
}

fn tell_refusals(rt: &impl Print) -> io::Result<()> {
    let stations = Stations::check(&STATION_HEADS, &ORDINATES);
    let too_few = Stations::check(&STATION_HEADS, &ORDINATES[1..]);
    let no_step = Stations::check(&NO_STEP, &ORDINATES);
    let told = [
        ("the stations", stations),
        ("the runs", Runs::check(&RUN_HEADS, &RUNS)),
        ("a station too few", too_few),
        ("a second step of 0", no_step),
        ("a run of length 0", Runs::check(&RUN_HEADS[1..], &GAP)),
        (
            "runs that peak above the limit",
            Runs::check(&RUN_HEADS[1..], &PEAK),
        ),
    ];
    for (what, answer) in told {
        match answer {
            Ok(()) => println!(rt; "{what}: right")?,
            Err(refusal) => println!(rt; "{what}: refused, {refusal}")?,
        }
    }
    Ok(())
}

fn main(rt: HostRuntime) -> io::Result<()> {
    let first = Stations::make(&STATION_HEADS, &ORDINATES);
    let second = Runs::make(&RUN_HEADS, &RUNS);
    list_lines(&rt, &Joined { first, second })?;
    tell_refusals(&rt)?;
    let none = Stations::make(&NO_STEP, &ORDINATES).count();
    println!(rt; "a family of stations without a step has {none} lines")
}
