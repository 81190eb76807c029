//! What a scheduler holds: contracts and cells.

ghost use Rattle.std.specs.Prelude.{◌≡◌};
ghost use Rattle.scheduler.specs.Meaning.{stamped};

use cells::times::{Slot, Span};

/// A cell as a scheduler hands it out: whose it is, its label, and the slot from which it might
/// be sent.
#[derive(Clone, Copy)]
pub struct Cell {
    pub party: u8,
    pub label: u32,
    pub eligible: Slot,
}

/// What a party was granted: its cells come at least `spacing` slots apart, and each is sent
/// within `bound` slots, the one in which it becomes eligible counted. `last` is the slot of the
/// last cell put.
#[derive(Clone, Copy)]
pub struct Contract {
    pub spacing: Span,
    pub bound: Span,
    pub last: Option<Slot>,
}

impl Contract {
    /// Notes the slot of the last cell put.
    pub(crate) fn stamp(&mut self, slot: Slot)
        ensures { self.new ≡ stamped self.old slot.0 }
    {
        self.last = Some(slot);
    }
}
