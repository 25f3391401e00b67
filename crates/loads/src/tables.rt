//! The table of loads, and the numbers of the classes.
ghost use Rattle.std.specs.Prelude.{◌≡◌, ◌≤◌};
ghost use Rattle.loads.specs.Classes.{class_number, loads, row};

use crate::classes::Class;
use crate::load_sets::{LoadSet, Loads, Spread};

/// The figures of a row of the table; p and the lengths of the blocks are those of every row.
fn row_of(
    single: u16,
    bogie: u16,
    triple: u16,
    spacing: u16,
    vehicle: u16,
    train: u16,
    extra: u16,
) -> LoadSet
    requires single { single ≤ 200 }
    requires bogie { bogie ≤ 200 }
    requires triple { triple ≤ 200 }
    requires spacing { spacing ≤ 2000 }
    requires vehicle { vehicle ≤ 800 }
    requires train { train ≤ 800 }
    requires extra { extra ≤ 50 }
    ensures { result.loads ≡ row single bogie triple spacing vehicle train extra }
{
    let vehicle = Spread {
        weight: vehicle,
        length: 7_000,
    };
    let train = Spread {
        weight: train,
        length: 16_000,
    };
    let loads = Loads {
        single,
        second: single,
        bogie,
        triple,
        spacing,
        vehicle,
        train,
        extra,
        lane: 6,
    };
    LoadSet { loads }
}

/// The class number, from 1 to 4.
impl From<Class> for u8 {
    ghost from_gives = { λ class number. number ≡ class_number class };

    fn from(class: Class) -> u8 {
        match class {
            Class::Bk6 => 1,
            Class::Bk8 => 2,
            Class::BkT8 => 3,
            Class::Bk10 => 4,
        }
    }
}

impl Class {
    /// The load set that the class names.
    pub fn load_set(self) -> LoadSet
        ensures { result.loads ≡ loads self }
    {
        match self {
            Class::Bk6 => row_of(84, 30, 40, 1_200, 180, 280, 24),
            Class::Bk8 => row_of(112, 40, 50, 1_200, 220, 320, 32),
            Class::BkT8 => row_of(112, 40, 60, 1_200, 280, 400, 32),
            Class::Bk10 => row_of(160, 65, 70, 1_300, 300, 500, 40),
        }
    }
}
