//! Load sets: the loads that may stand in a heavy lane, and p.
ghost use Rattle.std.specs.Prelude.{◌≤◌};

/// A weight in kN that is spread evenly over a block of so many mm.
#[derive(Clone, Copy, Debug, PartialEq, Eq)]
pub struct Spread {
    pub weight: u16,
    pub length: u16,
}

/// The figures of a load set, in kN, mm and kN per metre.
#[derive(Clone, Copy, Debug, PartialEq, Eq)]
pub struct Loads {
    /// The single axle.
    pub single: u16,
    /// A2, the heavier axle of a bogie or a triple.
    pub second: u16,
    /// A1 of a bogie.
    pub bogie: u16,
    /// A1 of a triple.
    pub triple: u16,
    /// From an axle of a group to the next.
    pub spacing: u16,
    pub vehicle: Spread,
    pub train: Spread,
    /// A, the axle on top of a vehicle or train.
    pub extra: u16,
    /// p, beside a train and in a light lane.
    pub lane: u16,
}

/// A group of axles, by its weights from the first axle on.
#[derive(Clone, Copy, Debug, PartialEq, Eq)]
pub enum Group {
    Single,
    Bogie12,
    Bogie21,
    Triple211,
    Triple121,
    Triple112,
}

/// A load set whose figures keep limits, so that no sum over it passes 64 bits.
#[derive(Clone, Copy)]
pub struct LoadSet {
    pub loads: Loads,
    ghost axles: { (loads.single ≤ 200) × (loads.second ≤ 200) × (loads.bogie ≤ 200) × (loads.triple ≤ 200) },
    ghost vehicle: { (7000 ≤ loads.vehicle.length) × (loads.vehicle.length ≤ 16000) × (loads.vehicle.weight ≤ 800) },
    ghost train: { (7000 ≤ loads.train.length) × (loads.train.length ≤ 16000) × (loads.train.weight ≤ 800) },
    ghost rest: { (loads.spacing ≤ 2000) × (loads.extra ≤ 50) × (loads.lane ≤ 6) },
}
