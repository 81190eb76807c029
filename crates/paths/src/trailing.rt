//! What a trail says of a cell that comes, and how it goes on.

ghost use Rattle.std.specs.Prelude.{◌≡◌, ◌+◌, ◌^◌, ◌≤◌, ltb, if◌then◌else◌, MatchOption, IfOk, Some, None, nat_lt};
ghost use Rattle.std.specs.Result.{result_err};
ghost use Rattle.calendar.specs.Days.{now_of, waiting_of};
ghost use Rattle.paths.specs.Trails.{follows, waits_near, crowding, still, arrival_by};
ghost use Rattle.paths.specs.Verdicts.{out_of_window};

use crate::checks::refused;
use crate::trail::Trail;
use calendar::grid::Calendar;
use cells::faults::{Cause, Fault, NO_HOP};
use cells::times::{Slot, Span};
use header::Header;
use scheduler::terms::Cell;

/// The slot so many slots after another, in 64 bits, which hold every such sum.
fn after(slot: Slot, span: Span) -> u64
    ensures { result ≡ slot.0 + span.0 }
{
    u64::from(slot.0) + u64::from(span.0)
}

/// The slot in which a cell is eligible that arrives in a slot, so many slots ahead. None where
/// that slot has no number in 32 bits.
fn eligible_from(arrival: Slot, ahead: Span) -> Option<Slot>
    ensures { MatchOption result (2 ^ 32 ≤ arrival.0 + ahead.0) (λ e. e.0 ≡ arrival.0 + ahead.0) }
{
    arrival.0.checked_add(ahead.0).map(Slot)
}

/// Whether a slot comes sooner than so many slots after another.
fn sooner(slot: Slot, other: Slot, span: Span) -> bool
    ensures { result ≡ nat_lt slot.0 (other.0 + span.0) }
{
    u64::from(slot.0) < after(other, span)
}

impl Trail {
    /// Whether a cell that is eligible in this slot comes less than a spacing from another cell of
    /// the party, on the path or delivered last. `waiting` has the cells that wait here.
    pub fn crowded(&self, waiting: &Calendar, party: u8, eligible: Slot) -> bool
        ensures { result ≡ crowding self.now.latest self.now.last self.now.spacing.0 (waiting_of waiting.now party) eligible.0 }
    {
        self.latest.is_some_and(|latest| {
            sooner(eligible, latest, self.spacing)
                && (sooner(latest, eligible, self.spacing)
                    || self.follows(eligible)
                    || self.waits_near(waiting, party, eligible))
        })
    }

    // Whether the slot comes sooner than a spacing after the last that was taken.
    fn follows(&self, eligible: Slot) -> bool
        ensures { result ≡ follows self.now.last self.now.spacing.0 eligible.0 }
    {
        self.last
            .is_some_and(|last| sooner(eligible, last, self.spacing))
    }

    // Whether a cell waits less than a spacing from the slot. Where the last of these slots has no
    // number in 32 bits, no cell waits so late.
    fn waits_near(&self, waiting: &Calendar, party: u8, eligible: Slot) -> bool
        ensures { result ≡ waits_near (waiting_of waiting.now party) self.now.spacing.0 eligible.0 }
    {
        let from = eligible.0.saturating_sub(self.spacing.0 - 1);
        let to = eligible.0.saturating_add(self.spacing.0);
        waiting.any_between(party, Slot(from), Slot(to))
    }

    /// Whether a cell is still on the path in this slot: the latest to enter has not left before it.
    /// A cell leaves the path constant after the slot in which it was eligible.
    pub fn still_on(&self, constant: Span, slot: Slot) -> bool
        ensures { result ≡ still self.now.latest constant.0 slot.0 }
    {
        self.latest
            .is_some_and(|latest| after(latest, constant) >= u64::from(slot.0))
    }

    /// Whether a cell that comes in `slot` is eligible too early or too late: below that slot, or
    /// the lead or more ahead of it.
    pub fn out_of_window(&self, slot: Slot, eligible: Slot) -> bool
        ensures { result ≡ out_of_window slot.0 self.now.lead.0 eligible.0 }
    {
        eligible < slot || !sooner(eligible, slot, self.lead)
    }

    /// The cell of a header that arrives in a slot, unless it is refused: it is eligible outside the
    /// window, or less than a spacing from another cell of the party. `waiting` has the cells that
    /// wait here.
    pub fn check_arrival(
        &self,
        waiting: &Calendar,
        arrived: Header,
        arrival: Slot,
    ) -> Result<Cell, Fault>
        ensures cell { IfOk result (λ c. (c.party ≡ arrived.party) × (c.eligible.0 ≡ arrival.0 + arrived.ahead.0) × (c.label ≡ arrived.label)) }
        ensures verdict { result_err result ≡ arrival_by self.now (waiting_of waiting.now arrived.party) (now_of waiting.now) arrived.party (arrival.0 + arrived.ahead.0) }
    {
        let party = arrived.party;
        let late = refused(Cause::EligibleOutOfWindow, party, NO_HOP);
        let eligible = eligible_from(arrival, arrived.ahead).ok_or(late)?;
        if self.out_of_window(waiting.slot(), eligible) {
            return Err(late);
        }
        if self.crowded(waiting, party, eligible) {
            return Err(refused(Cause::TooSoon, party, NO_HOP));
        }
        Ok(Cell {
            party,
            label: arrived.label,
            eligible,
        })
    }

    /// The trail once a cell has entered: its eligible slot is the latest, unless another is later.
    pub fn entering(mut self, eligible: Slot) -> Trail
        ensures spacing { result.spacing ≡ self.spacing }
        ensures lead { result.lead ≡ self.lead }
        ensures latest { elim self.latest [ None ↦ result.latest ≡ Some eligible | Some a ↦ result.latest ≡ (if ltb eligible.0 a.0 then Some a else Some eligible) ] }
        ensures last { result.last ≡ self.last }
    {
        self.latest = self.latest.max(Some(eligible));
        self
    }

    /// The trail once a cell was taken in this slot from those that wait.
    pub fn taking(mut self, slot: Slot) -> Trail
        ensures spacing { result.spacing ≡ self.spacing }
        ensures lead { result.lead ≡ self.lead }
        ensures latest { result.latest ≡ self.latest }
        ensures last { result.last ≡ Some slot }
    {
        self.last = Some(slot);
        self
    }
}
