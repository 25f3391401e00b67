//! Memory for the work of a search, of a fixed size, since nothing here takes any from the heap.

/// Rows that a search of blocks writes into, one for the running sums and one for the furthest ordinates.
#[derive(Drop)]
pub(crate) struct Work {
    pub sums: [i64; 100_001],
    pub tops: [i64; 16_001],
}
