//! Indexes of a vertex in neighbouring layers.

// The index in the layer above of a vertex with this index, if it is in that layer.
pub(crate) fn index_above<const BRANCH_FACTOR: u32>(index: u32) -> Option<u32> {
    if BRANCH_FACTOR != 0 && index % BRANCH_FACTOR == 0 {
        Some(index / BRANCH_FACTOR)
    } else {
        None
    }
}

// The index in the layer below of a vertex with this index, or 0 where none is so great.
pub(crate) fn index_below<const BRANCH_FACTOR: u32>(index: u32) -> u32 {
    let below = u64::from(index) * u64::from(BRANCH_FACTOR);
    u32::try_from(below).unwrap_or(0)
}
