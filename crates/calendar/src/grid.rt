//! The cells that wait.

ghost use Rattle.std.specs.Prelude.{◌≡◌, ◌+◌, ◌≤◌, length};
ghost use Rattle.scheduler.specs.Meaning.{last_slot};

use cells::parties::ByParty;
use cells::times::Slot;

/// Cells that wait for a slot: of each party (0 to 15) and each slot from the present one on, less
/// than 192 ahead, the label of the cell that waits for it. What waits for a slot stands in the day
/// of its number modulo 192; a day for which no cell waits has no labels.
#[derive(Clone, Copy)]
pub struct Calendar {
    pub(crate) slot: Slot,
    pub(crate) days: [Option<ByParty<u32>>; 192],
    ghost slots: { slot.0 ≤ last_slot + 1 },
    ghost whole: { length days ≡ 192 },
}
