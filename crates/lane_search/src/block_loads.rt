//! Blocks as a search takes them.
ghost use Rattle.std.specs.Prelude.{◌≤◌};

use loads::load_sets::{LoadSet, Spread};

/// A load that is spread over a block, the axle on it, and p beside it, as factors of a lane effect.
#[derive(Clone, Copy)]
pub(crate) struct BlockLoad {
    /// In mm.
    pub length: u16,
    /// Of a double area under the block.
    pub rate: u32,
    /// Of the ordinate under the axle.
    pub extra: u32,
    /// Of a double area under p.
    pub lane: u32,
    ghost length_limit: { length ≤ 16000 },
    ghost rate_limit: { rate ≤ 12800 },
    ghost extra_limit: { extra ≤ 11200000 },
    ghost lane_limit: { lane ≤ 672 },
}

impl BlockLoad {
    ghost use Rattle.std.specs.Prelude.{◌≤◌};
    ghost use Rattle.lane_search.specs.Blocks.{Factors};

    // The factors of a weight over its block, of A and of p.
    fn over(spread: Spread, extra: u16, lane: u16) -> BlockLoad
        requires long { 7000 ≤ spread.length }
        requires short { spread.length ≤ 16000 }
        requires weight { spread.weight ≤ 800 }
        requires extra { extra ≤ 50 }
        requires lane { lane ≤ 6 }
        ensures { Factors spread extra lane result }
    {
        BlockLoad {
            length: spread.length,
            rate: 112_000 / spread.length as u32 * spread.weight as u32,
            extra: 224_000 * extra as u32,
            lane: 112 * lane as u32,
        }
    }

    // A vehicle with A on it.
    pub(crate) fn vehicle(set: &LoadSet) -> BlockLoad
        ensures { Factors set.now.loads.vehicle set.now.loads.extra 0 result }
    {
        BlockLoad::over(set.loads.vehicle, set.loads.extra, 0)
    }

    // A train with A on it and p beside it.
    pub(crate) fn train(set: &LoadSet) -> BlockLoad
        ensures { Factors set.now.loads.train set.now.loads.extra set.now.loads.lane result }
    {
        BlockLoad::over(set.loads.train, set.loads.extra, set.loads.lane)
    }
}
