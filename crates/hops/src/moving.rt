//! How cells move: into the scheduler, and to the path behind.

ghost use Rattle.std.specs.Prelude.{◌≡◌, ℕ, ◌+◌, ◌<◌, ◌≤◌, get_or, Some, None, slice_index_or, slice_set};
ghost use Rattle.scheduler.specs.Meaning.{due, last_slot, put_verdict};
ghost use Rattle.paths.specs.Route.{entered};
ghost use Rattle.paths.specs.Verdicts.{arrival_rule};
ghost use Rattle.hops.specs.Rows.{with_row, with_one};

use crate::crossing::Crossing;
use cells::parties::ByParty;
use cells::times::{Slot, Span};
use header::{Header, LENGTH};
use paths::Path;
use scheduler::Scheduler;
use scheduler::terms::Cell;

// Puts the cell of a party, if there is one. The scheduler takes it.
fn put_one<S: Scheduler>(scheduler: &mut S, party: u8, label: Option<u32>)
    requires { (l : ℕ) → label ≡ Some l → put_verdict (S.Scheduler.meaning scheduler.old) party ≡ None }
    ensures { S.Scheduler.meaning scheduler.new ≡ with_one label party (S.Scheduler.meaning scheduler.old) }
{
    if let Some(label) = label {
        scheduler.put(party, label).unwrap();
    }
}

/// Puts the cells of a row, by party. The scheduler takes each.
pub(crate) fn put_row<S: Scheduler>(scheduler: &mut S, row: &ByParty<u32>)
    requires { (p l : ℕ) → slice_index_or row.now.entries p None ≡ Some l → put_verdict (S.Scheduler.meaning scheduler.old) p ≡ None }
    ensures { S.Scheduler.meaning scheduler.new ≡ with_row (λ p. get_or row.now.entries p None) (S.Scheduler.meaning scheduler.old) }
{
    for (party, label) in row.entries().iter().enumerate() {
        put_one(scheduler, party as u8, *label);
    }
}

impl Crossing {
    /// The header of a cell that is sent in a slot: how far ahead of its due slot that is.
    pub(crate) fn header_of(&self, cell: Cell, slot: Slot) -> Header
        requires slots { slot.0 ≤ last_slot + 1 }
        requires ready { cell.eligible.0 ≤ slot.0 }
        requires timely { slot.0 ≤ due cell.eligible.0 self.now.bound.0 }
        ensures party { result.party ≡ cell.party }
        ensures ahead { slot.0 + result.ahead.0 ≡ due cell.eligible.0 self.now.bound.0 }
        ensures label { result.label ≡ cell.label }
    {
        let due = cell.eligible + Span(self.bound.0 - 1);
        Header {
            party: cell.party,
            ahead: due - slot,
            label: cell.label,
        }
    }
}

/// The slot in which a cell arrives that is sent over a link: the slot after, and the link's slots more.
pub(crate) fn arrival_of(slot: Slot, link: Span) -> Slot
    requires slots { slot.0 ≤ last_slot }
    requires link { link.0 ≤ 63 }
    ensures { result.0 ≡ slot.0 + 1 + link.0 }
{
    slot + Span(1) + link
}

/// Writes a hop's entry of the send table.
pub(crate) fn note(sends: &mut [Option<Header>; 8], hop: u8, entry: Option<Header>)
    requires { hop < 8 }
    ensures { sends.new ≡ slice_set sends.old hop entry }
{
    sends[usize::from(hop)] = entry;
}

/// Writes a header, and has the cell enter the path behind by it, which takes it.
pub(crate) fn forward<P: Path>(behind: &mut P, header: Header, arrival: Slot)
    requires party { header.party ≤ 15 }
    requires ahead { header.ahead.0 ≤ 127 }
    requires consent { arrival_rule (P.Path.route behind.old) ((P.Path.route behind.old).contracts header.party) header.party (arrival.0 + header.ahead.0) ≡ None }
    ensures { P.Path.route behind.new ≡ entered (P.Path.route behind.old) header.party (arrival.0 + header.ahead.0) header.label }
{
    let mut bytes = [0; LENGTH];
    header.write(&mut bytes).unwrap();
    behind.enter(&bytes, arrival).unwrap();
}
