//! Figures of a small bridge, and some that cannot be lines.
use families::rows::{Run, RunHead, StationHead};

/// Midspan moment of a 12 m girder, and support moment over the middle of two spans of 6 m, both in kNcm for 1 kN.
pub const STATION_HEADS: [StationHead; 2] = [
    StationHead {
        step: 1000,
        stations: 13,
    },
    StationHead {
        step: 1000,
        stations: 13,
    },
];

pub const ORDINATES: [i32; 26] = [
    0, 50, 100, 150, 200, 250, 300, 250, 200, 150, 100, 50, 0, 0, -24, -44, -56, -56, -38, 0, -38,
    -56, -56, -44, -24, 0,
];

/// Midspan shear of a 12 m girder, in thousandths, and midspan moment of a 10 m girder, in kNmm.
pub const RUN_HEADS: [RunHead; 2] = [
    RunHead { scale: 12, runs: 3 },
    RunHead { scale: 2, runs: 2 },
];

pub const RUNS: [Run; 5] = [
    Run {
        length: 5999,
        rise: -1,
    },
    Run {
        length: 2,
        rise: 5999,
    },
    Run {
        length: 5999,
        rise: -1,
    },
    Run {
        length: 5000,
        rise: 1,
    },
    Run {
        length: 5000,
        rise: -1,
    },
];

/// The second head has no step.
pub const NO_STEP: [StationHead; 2] = [
    StationHead {
        step: 1000,
        stations: 13,
    },
    StationHead {
        step: 0,
        stations: 13,
    },
];

/// The ordinate is too large halfway, and 0 at both ends.
pub const PEAK: [Run; 2] = [
    Run {
        length: 1000,
        rise: 1001,
    },
    Run {
        length: 1000,
        rise: -1001,
    },
];

/// The second run is shorter than 1.
pub const GAP: [Run; 2] = [
    Run {
        length: 1000,
        rise: 1,
    },
    Run { length: 0, rise: 5 },
];
