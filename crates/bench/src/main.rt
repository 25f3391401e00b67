//! Finds the worst arrangements of all four classes, upwards and downwards, on a line of 100 m, and prints their sums. It is run to see how long that takes.
#![tactic(auto)]

ghost use Rattle.std.specs.Prelude.{◌<◌, ◌≤◌};

use families::rows::StationHead;
use families::stations::Stations;
use lane_search::samples::Sample;
use lines::numbered::Numbered;
use loads::carriageways::Carriageway;
use loads::classes::Class;
use loads::shares::Shares;
use search::arrangements::worst_each_way;
use std::io;
use traffic::records::Record;

const HEADS: [StationHead; 1] = [StationHead {
    step: 500,
    stations: 201,
}];

// Fills a list with numbers from -most to most, without any order.
fn fill(numbers: &mut [i32], most: u32)
    requires { most ≤ 2000 }
{
    let mut seed: u32 = 1;
    for number in numbers.iter_mut() {
        seed = seed * 7919 % 500_009;
        *number = (seed % (2 * most + 1)) as i32 - most as i32;
    }
}

fn tell(
    rt: &impl Print,
    class: Class,
    sample: &Sample,
    carriageway: &Carriageway,
    shares: &Shares,
) -> io::Result<()> {
    let mut up = Record::EMPTY;
    let mut down = Record::EMPTY;
    let number = u8::from(class);
    let (most, least) = worst_each_way(
        sample,
        &class.load_set(),
        carriageway,
        shares,
        &mut up,
        &mut down,
    );
    for (direction, (sum, lanes)) in [("up", most), ("down", least)] {
        println!(rt; "class {number} {direction} {sum} on {lanes} lanes")?;
    }
    Ok(())
}

fn main(rt: HostRuntime) -> io::Result<()> {
    let mut ordinates = [0i32; 201];
    fill(&mut ordinates, 2000);
    let mut percents = [0i32; 121];
    fill(&mut percents, 100);
    let family = Stations::make(&HEADS, &ordinates);
    let Ok(carriageway) = Carriageway::new(120, true, true) else {
        return println!(rt; "the carriageway is refused");
    };
    let Ok(shares) = Shares::new(&carriageway, &percents) else {
        return println!(rt; "the shares are refused");
    };
    let sample = Sample::of(&Numbered {
        family: &family,
        number: 0,
    });
    for class in [Class::Bk6, Class::Bk8, Class::BkT8, Class::Bk10] {
        tell(&rt, class, &sample, &carriageway, &shares)?;
    }
    Ok(())
}
