//! How cells come to wait, and how slots end.

ghost use Rattle.std.specs.Prelude.{◌≡◌, ℕ, ◌+◌, ◌≤◌, if◌then◌else◌, Some, None, nat_eq, nat_lt};
ghost use Rattle.scheduler.specs.Meaning.{last_slot, updated};
ghost use Rattle.calendar.specs.Days.{now_of, waiting_of};
ghost use Rattle.calendar.specs.Rows.{room, row_of};

use crate::grid::Calendar;
use crate::keeping::{keep, take};
use crate::lookups::day_of;
use cells::limits::LAST;
use cells::parties::ByParty;
use cells::times::{Slot, Span};

/// The slot after this one; past the last slot it stays.
fn following(slot: Slot) -> Slot
    ensures { result.0 ≡ (if nat_lt last_slot slot.0 then slot.0 else slot.0 + 1) }
{
    if slot > Slot(LAST) {
        return slot;
    }
    slot + Span(1)
}

impl Calendar {
    /// At slot 0, and no cell waits.
    pub fn new() -> Calendar
        ensures slot { now_of result ≡ 0 }
        ensures cells { waiting_of result ≡ (λ p e. None) }
    {
        Calendar::empty(Slot(0))
    }

    // At a slot, and no cell waits.
    fn empty(slot: Slot) -> Calendar
        requires { slot.0 ≤ last_slot + 1 }
        ensures slot { now_of result ≡ slot.0 }
        ensures cells { waiting_of result ≡ (λ p e. None) }
    {
        Calendar {
            slot,
            days: [None; 192],
        }
    }

    // A test, and no error: there is one reason, which carries nothing, and paths prove that there is room.
    /// Has a cell of the party wait for the slot, in place of one that waited for it, and answers
    /// whether it can: the party is at most 15, and the slot is the present one or less than 192
    /// ahead.
    pub fn put(&mut self, party: u8, slot: Slot, label: u32) -> bool
        ensures answer { result ≡ room (now_of self.old) party slot.0 }
        ensures slot { now_of self.new ≡ now_of self.old }
        ensures cells { waiting_of self.new ≡ (if room (now_of self.old) party slot.0 then updated (waiting_of self.old) party (updated (waiting_of self.old party) slot.0 (Some label)) else waiting_of self.old) }
    {
        if !self.has_room(party, slot) {
            return false;
        }
        keep(&mut self.days, day_of(slot), party, label);
        true
    }

    /// Ends the present slot: answers, by party, the cells that waited for it, none if there are
    /// none, and lets them go. Past the last slot the slot stays.
    pub fn next_day(&mut self) -> Option<ByParty<u32>>
        ensures answer { (p : ℕ) → row_of result p ≡ waiting_of self.old p (now_of self.old) }
        ensures slot { now_of self.new ≡ (if nat_lt last_slot (now_of self.old) then now_of self.old else now_of self.old + 1) }
        ensures cells { waiting_of self.new ≡ (λ p e. (if nat_eq e (now_of self.old) then None else waiting_of self.old p e)) }
    {
        let row = take(&mut self.days, day_of(self.slot));
        self.slot = following(self.slot);
        row
    }

    /// At slot 0 again, and no cell waits.
    pub fn reset(&mut self)
        ensures slot { now_of self.new ≡ 0 }
        ensures cells { waiting_of self.new ≡ (λ p e. None) }
    {
        *self = Calendar::new();
    }
}
