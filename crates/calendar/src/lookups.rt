//! What a calendar says of its cells.

ghost use Rattle.std.specs.Prelude.{◌≡◌, ℕ, ◌%◌, ◌<◌, ◌≤◌, true, false, is_some, None};
ghost use Rattle.calendar.specs.Days.{now_of, waiting_of};
ghost use Rattle.calendar.specs.Rows.{room};

use crate::grid::Calendar;
use cells::limits::LAST_PARTY;
use cells::times::{Slot, Span};

/// How many slots from the present one on cells may wait for.
const DAYS: u32 = 192;

/// The day of a slot.
pub(crate) fn day_of(slot: Slot) -> usize
    ensures { result ≡ slot.0 % 192 }
{
    (slot.0 % DAYS) as usize
}

impl Calendar {
    /// The present slot.
    pub fn slot(&self) -> Slot
        ensures { result.0 ≡ now_of self.now }
    {
        self.slot
    }

    /// Whether a cell of the party can wait for the slot.
    pub(crate) fn has_room(&self, party: u8, slot: Slot) -> bool
        ensures { result ≡ room (now_of self.now) party slot.0 }
    {
        party <= LAST_PARTY && self.slot <= slot && slot < self.slot + Span(DAYS)
    }

    /// The label of the party's cell that waits for the slot, if one does.
    pub fn label(&self, party: u8, slot: Slot) -> Option<u32>
        ensures { result ≡ waiting_of self.now party slot.0 }
    {
        if !self.has_room(party, slot) {
            return None;
        }
        self.days[day_of(slot)].as_ref()?.get(party)
    }

    /// Whether a cell of the party waits for a slot from `from` on and below `to`.
    pub fn any_between(&self, party: u8, from: Slot, to: Slot) -> bool
        ensures found { result ≡ true → ((e : ℕ) × (from.0 ≤ e) × (e < to.0) × (is_some (waiting_of self.now party e) ≡ true)) }
        ensures none { result ≡ false → (e : ℕ) → from.0 ≤ e → e < to.0 → waiting_of self.now party e ≡ None }
    {
        let end = self.slot + Span(DAYS);
        self.any_within(party, from.0.max(self.slot.0), to.0.min(end.0))
    }

    // Whether a cell of the party waits for a slot from `first` on and below `end`.
    fn any_within(&self, party: u8, first: u32, end: u32) -> bool
        ensures found { result ≡ true → ((e : ℕ) × (first ≤ e) × (e < end) × (is_some (waiting_of self.now party e) ≡ true)) }
        ensures none { result ≡ false → (e : ℕ) → first ≤ e → e < end → waiting_of self.now party e ≡ None }
    {
        for slot in first..end {
            if self.label(party, Slot(slot)).is_some() {
                return true;
            }
        }
        false
    }
}
