//! Hashes of values, for tests of whether equal values hash alike.

use std::hash::{DefaultHasher, Hash, Hasher};

/// What a value hashes to.
pub fn hash_of<T: Hash>(value: &T) -> u64 {
    let mut state = DefaultHasher::new();
    value.hash(&mut state);
    state.finish()
}
