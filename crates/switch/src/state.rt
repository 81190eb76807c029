//! What a switch holds.

use cells::makes::Make;

/// One scheduler of each make, and the make that the switch behaves as.
#[derive(Drop)]
pub struct Switch<E, S, T> {
    pub(crate) make: Make,
    pub(crate) edf: E,
    pub(crate) sp: S,
    pub(crate) table: T,
}
