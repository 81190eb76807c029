//! How the crossings of a hop are kept.

ghost use Rattle.std.specs.Prelude.{◌≡◌, ℕ, ◌<◌, ◌≤◌, None, slice_index_or};
ghost use Rattle.scheduler.specs.Meaning.{updated};
ghost use Rattle.paths.specs.Verdicts.{sum_below};
ghost use Rattle.hops.specs.Crossed.{crossings_of, crossing_load, Took};

use crate::crossing::Crossing;
use crate::crossings::Crossings;
use cells::parties::ByParty;
use cells::times::Slot;

impl Crossings {
    /// No party crosses.
    pub(crate) fn new() -> Crossings
        ensures { crossings_of result ≡ (λ p. None) }
    {
        Crossings {
            parties: ByParty::new(),
        }
    }

    /// Notes how a party crosses, or that it does not.
    pub(crate) fn set(&mut self, party: u8, crossing: Option<Crossing>)
        requires { party < 16 }
        ensures { crossings_of self.new ≡ updated (crossings_of self.old) party crossing }
    {
        self.parties.set(party, crossing);
    }

    /// How many cells can wait at once.
    pub(crate) fn load(&self) -> u32
        ensures value { result ≡ sum_below 16 (λ q. crossing_load (crossings_of self.now q)) }
        ensures few { result ≤ 3056 }
    {
        self.parties
            .entries()
            .iter()
            .map(|crossing| load_of(*crossing))
            .sum()
    }

    /// Notes that the cells of these parties were taken in a slot, to be sent.
    pub(crate) fn take_row(&mut self, row: &ByParty<u32>, slot: Slot)
        ensures { (p : ℕ) → Took (slice_index_or row.now.entries p None) slot.0 (crossings_of self.old p) (crossings_of self.new p) }
    {
        for (party, label) in row.entries().iter().enumerate() {
            let party = party as u8;
            let crossing = taken(*label, self.parties.get(party), slot);
            self.parties.set(party, crossing);
        }
    }
}

// How many cells of a party can wait at once.
fn load_of(crossing: Option<Crossing>) -> u32
    ensures value { result ≡ crossing_load crossing }
    ensures few { result ≤ 191 }
{
    crossing.map_or(0, |crossing| crossing.trail.share())
}

// A crossing after a slot in which its cell, if there was one, was taken to be sent.
fn taken(label: Option<u32>, crossing: Option<Crossing>, slot: Slot) -> Option<Crossing>
    ensures { Took label slot.0 crossing result }
{
    if label.is_some() {
        crossing.map(|crossing| crossing.taking(slot))
    } else {
        crossing
    }
}
