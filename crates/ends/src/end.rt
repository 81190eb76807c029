//! The state of the end.

ghost use Rattle.calendar.specs.Days.{now_of, waiting_of};
ghost use Rattle.ends.specs.Ends.{trail_of, route_of, Tracked};

use crate::trails::Trails;
use calendar::grid::Calendar;

/// The end of a path: cells wait until they leave, and are delivered then. `first` is how many
/// hops stand in front of it; its own number is always 8.
#[derive(Clone, Copy)]
pub struct End {
    pub(crate) first: u8,
    pub(crate) waiting: Calendar,
    pub(crate) trails: Trails,
    // the laws hold, and each trail says which cell of its party is the latest
    pub ghost tracked: { ∥ Tracked (route_of (now_of waiting) first (trail_of trails) (waiting_of waiting)) (trail_of trails) ∥₁ },
}
