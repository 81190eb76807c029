//! What a tick of the end writes.

ghost use Rattle.std.specs.Prelude.{◌≡◌, ℕ, ◌+◌, ◌<◌, ◌≤◌, Some, None, ◌≢◌, slice_index_or};
ghost use Rattle.scheduler.specs.Meaning.{last_slot};
ghost use Rattle.paths.specs.Route.{noted, delivery_entry};
ghost use Rattle.ends.specs.Ends.{trail_of, terms_in, latest_in, Noted};

use crate::trails::Trails;
use cells::parties::ByParty;
use cells::times::Slot;
use header::Header;
use paths::tables::Delivery;

/// Sends nothing from a hop on.
pub(crate) fn send_nothing(sends: &mut [Option<Header>; 8], first: u8)
    requires { first ≤ 8 }
    ensures front { (k : ℕ) → k < first → slice_index_or sends.new k None ≡ slice_index_or sends.old k None }
    ensures rest { (k : ℕ) → first ≤ k → slice_index_or sends.new k None ≡ None }
{
    sends[usize::from(first)..].fill(None);
}

impl Trails {
    /// Notes that a cell of the party is taken in this slot.
    pub(crate) fn take(&mut self, party: u8, slot: Slot)
        requires within { party < 16 }
        requires slots { slot.0 ≤ last_slot + 1 }
        ensures others { (p : ℕ) → (p ≢ party) → trail_of self.new p ≡ trail_of self.old p }
        ensures terms { (l : ℕ) → terms_in (trail_of self.new party) ≡ noted (terms_in (trail_of self.old party)) (Some l) slot.0 }
        ensures latest { latest_in (trail_of self.new party) ≡ latest_in (trail_of self.old party) }
    {
        if let Some(trail) = self.parties.get(party) {
            self.parties.set(party, Some(trail.taking(slot)));
        }
    }

    /// Delivers what waited for a slot, by party: each has its entry in the table, which has none
    /// before, and its trail notes the slot.
    pub(crate) fn deliver(
        &mut self,
        row: &ByParty<u32>,
        slot: Slot,
        deliveries: &mut [Option<Delivery>; 16],
    )
        requires slots { slot.0 ≤ last_slot + 1 }
        requires empty { (p : ℕ) → slice_index_or deliveries.old p None ≡ None }
        ensures table { (p : ℕ) → slice_index_or deliveries.new p None ≡ delivery_entry p (slice_index_or row.now.entries p None) }
        ensures trails { (p : ℕ) → Noted (trail_of self.old p) (slice_index_or row.now.entries p None) slot.0 (trail_of self.new p) }
    {
        // by index: of a table written through `iter_mut` and `zip` the proof keeps nothing
        for (party, label) in row.entries().iter().enumerate() {
            if let Some(label) = *label {
                let party = party as u8;
                self.take(party, slot);
                deliveries[usize::from(party)] = Some(Delivery { party, label });
            }
        }
    }
}
