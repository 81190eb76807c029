//! A hop's calls.

ghost use Rattle.std.specs.Prelude.{◌≡◌, ℕ, ◌+◌, ◌<◌, ◌≤◌, ◌∷◌, true, length, is_some, if◌then◌else◌, Some, None, nat_eq};
ghost use Rattle.calendar.specs.Days.{now_of, waiting_of};
ghost use Rattle.scheduler.specs.Meaning.{last_slot, put_verdict};
ghost use Rattle.paths.specs.Route.{fresh};
ghost use Rattle.paths.specs.Verdicts.{answered, unless, holds_of, holds_any, bad_hop, withdraw_verdict, withdrawn};
ghost use Rattle.hops.specs.Crossed.{crossings_of, Took};
ghost use Rattle.hops.specs.Hops.{hop_route};
ghost use Rattle.hops.specs.Rows.{with_row};
ghost use Rattle.hops.specs.Sent.{Ready, Handed};
ghost use Rattle.scheduler.specs.declared.terms.Cell.{Cell};
ghost use Rattle.std.proofs.Math.Logic.{∥∥₁_elim};
ghost use Rattle.std.proofs.Props.{props};

use crate::crossings::Crossings;
use crate::hop::Hop;
use crate::moving::{arrival_of, forward, note, put_row};
use calendar::grid::Calendar;
use cells::faults::{Cause, Fault, NO_HOP};
use cells::limits::LAST_PARTY;
use cells::times::{Slot, Span};
use header::Header;
use paths::Path;
use paths::bounds::{bad_hop, bound_at};
use paths::checks::{check_terms, refused};
use paths::tables::Delivery;
use paths::trail::Trail;
use scheduler::Scheduler;
use scheduler::terms::Cell;

/// Puts the cells that have waited for this slot into the scheduler, and ends the slot of the calendar.
fn admit<S: Scheduler>(scheduler: &mut S, waiting: &mut Calendar, crossings: &mut Crossings)
    requires slots { now_of waiting.old ≤ last_slot }
    requires consent { (p l : ℕ) → waiting_of waiting.old p (now_of waiting.old) ≡ Some l → put_verdict (S.Scheduler.meaning scheduler.old) p ≡ None }
    ensures sched { S.Scheduler.meaning scheduler.new ≡ with_row (λ p. waiting_of waiting.old p (now_of waiting.old)) (S.Scheduler.meaning scheduler.old) }
    ensures day { now_of waiting.new ≡ now_of waiting.old + 1 }
    ensures waits { waiting_of waiting.new ≡ (λ p e. (if nat_eq e (now_of waiting.old) then None else waiting_of waiting.old p e)) }
    ensures crossings { (p : ℕ) → Took (waiting_of waiting.old p (now_of waiting.old)) (now_of waiting.old) (crossings_of crossings.old p) (crossings_of crossings.new p) }
{
    let slot = waiting.slot();
    if let Some(row) = waiting.next_day() {
        put_row(scheduler, &row);
        crossings.take_row(&row, slot);
    }
}

/// Sends a cell that was served in a slot over a link: the path behind takes it, with its header.
fn send<P: Path>(
    crossings: &Crossings,
    link: Span,
    behind: &mut P,
    served: Option<Cell>,
    slot: Slot,
) -> Option<Header>
    requires link { link.0 ≤ 63 }
    requires ready { (c : Cell) → served ≡ Some c → Ready (crossings_of crossings.now) link.0 slot.0 (P.Path.route behind.old) c }
    ensures { Handed (crossings_of crossings.now) link.0 slot.0 served result (P.Path.route behind.old) (P.Path.route behind.new) }
{
    let cell = served?;
    let crossing = crossings.parties.get(cell.party).unwrap();
    let header = crossing.header_of(cell, slot);
    forward(behind, header, arrival_of(slot, link));
    Some(header)
}

impl<S: Scheduler, P: Path> Hop<S, P> {
    /// Whether a cell of the party is on the path.
    fn holds_cell(&self, party: u8) -> bool
        ensures { result ≡ holds_of (hop_route S.Scheduler.meaning P.Path.route self.now) party }
    {
        self.crossings.parties.get(party).map_or_else(
            || self.behind.holds(party),
            |crossing| {
                crossing
                    .trail
                    .still_on(crossing.constant, self.waiting.slot())
            },
        )
    }

    /// Whether any cell is on the path.
    fn busy(&self) -> bool
        ensures { result ≡ holds_any (hop_route S.Scheduler.meaning P.Path.route self.now) }
    {
        (0..=LAST_PARTY).any(|party| self.holds_cell(party))
    }

    /// Takes away the contract of a party that crosses, here and behind, unless a cell of it is on the path.
    fn uncross(&mut self, party: u8) -> Result<(), Fault>
        requires crosses { is_some (crossings_of self.old.crossings party) ≡ true }
        requires party { party < 16 }
        ensures answer { result ≡ answered (withdraw_verdict (hop_route S.Scheduler.meaning P.Path.route self.old) party) }
        ensures becomes { hop_route S.Scheduler.meaning P.Path.route self.new ≡ unless (withdraw_verdict (hop_route S.Scheduler.meaning P.Path.route self.old) party) (hop_route S.Scheduler.meaning P.Path.route self.old) (withdrawn (hop_route S.Scheduler.meaning P.Path.route self.old) party) }
    {
        if self.holds_cell(party) {
            return Err(refused(Cause::PartyHasCells, party, NO_HOP));
        }
        self.scheduler.withdraw(party).unwrap();
        self.behind.withdraw(party).unwrap();
        self.crossings.set(party, None);
        Ok(())
    }
}

impl<S: Scheduler, P: Path> Path for Hop<S, P> {
    ghost route = { λ h. hop_route S.Scheduler.meaning P.Path.route h };

    ghost tests = { λ h. S.Scheduler.test h.scheduler ∷ P.Path.tests h.behind };

    ghost lawful = { λ h. ∥∥₁_elim h.sound (Prim.hlevel props) (λ s. s.level.lawful) };

    fn slot(&self) -> Slot {
        self.waiting.slot()
    }

    fn hops(&self) -> u8 {
        self.behind.hops() + 1
    }

    fn constant(&self, party: u8) -> Option<Span> {
        self.crossings
            .parties
            .get(party)
            .map(|crossing| crossing.constant)
            .or_else(|| self.behind.constant(party))
    }

    fn holds(&self, party: u8) -> bool {
        self.holds_cell(party)
    }

    fn grant(
        &mut self,
        party: u8,
        spacing: Span,
        bounds: &[Span; 8],
        lead: Span,
    ) -> Result<(), Fault> {
        let known = self.behind.constant(party).is_some();
        let bad = bad_hop(self.number, self.hops(), bounds, lead);
        check_terms(party, known, spacing, bad, self.busy())?;
        let bound = bound_at(bounds, self.number);
        if bound.0 == 0 {
            return self.behind.grant(party, spacing, bounds, lead);
        }
        let trail = Trail::new(spacing, lead).unwrap();
        self.cross(party, trail, bound, bounds)
    }

    fn withdraw(&mut self, party: u8) -> Result<(), Fault> {
        if self.crossings.parties.get(party).is_some() {
            self.uncross(party)
        } else {
            self.behind.withdraw(party)
        }
    }

    fn enter(&mut self, header: &[u8], arrival: Slot) -> Result<(), Fault> {
        let arrived = Header::read(header)?;
        // no `map_or_else`: both arms borrow the hop mutably
        match self.crossings.parties.get(arrived.party) {
            Some(crossing) => self.receive(crossing, arrived, arrival),
            None => self.behind.enter(header, arrival),
        }
    }

    fn tick(
        &mut self,
        deliveries: &mut [Option<Delivery>; 16],
        sends: &mut [Option<Header>; 8],
    ) -> Result<(), Fault> {
        let slot = self.waiting.slot();
        self.behind.tick(deliveries, sends)?;
        admit(&mut self.scheduler, &mut self.waiting, &mut self.crossings);
        let served = self.scheduler.serve().unwrap();
        let sent = send(&self.crossings, self.link, &mut self.behind, served, slot);
        note(sends, self.number, sent);
        Ok(())
    }

    fn reset(&mut self, first: u8) {
        self.number = first;
        self.scheduler.reset();
        self.waiting.reset();
        self.crossings = Crossings::new();
        self.behind.reset(first + 1);
    }
}
