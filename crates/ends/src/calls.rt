//! The calls of the end.

ghost use Rattle.std.specs.Prelude.{◌≡◌, ◌≤◌, []};
ghost use Rattle.paths.specs.Route.{fresh};
ghost use Rattle.ends.specs.Meant.{end_route};
ghost use Rattle.std.proofs.Math.Logic.{∥∥₁_elim};
ghost use Rattle.std.proofs.Props.{props};

use crate::delivery::send_nothing;
use crate::end::End;
use crate::trails::Trails;
use calendar::grid::Calendar;
use cells::faults::{Cause, Fault, NO_HOP, NO_PARTY};
use cells::limits::LAST;
use cells::parties::ByParty;
use cells::times::{Slot, Span};
use header::Header;
use paths::Path;
use paths::bounds::bad_hop;
use paths::checks::{END, check_terms, refused};
use paths::tables::Delivery;
use paths::trail::Trail;

impl End {
    /// With no hop in front: slot 0, no contract, no cell.
    pub fn new() -> End
        ensures { end_route result ≡ fresh 0 [] }
    {
        End::behind(0)
    }

    // With so many hops in front: slot 0, no contract, no cell.
    fn behind(first: u8) -> End
        requires { first ≤ 8 }
        ensures { end_route result ≡ fresh first [] }
    {
        End {
            first,
            waiting: Calendar::new(),
            trails: Trails {
                parties: ByParty::new(),
            },
        }
    }
}

impl Path for End {
    ghost route = { end_route };

    ghost tests = { λ _. [] };

    ghost lawful = { λ x. ∥∥₁_elim x.tracked (Prim.hlevel props) (λ t. t.lawful) };

    fn slot(&self) -> Slot {
        self.waiting.slot()
    }

    fn hops(&self) -> u8 {
        0
    }

    /// No hop lies before the end, so a cell leaves in its eligible slot.
    fn constant(&self, party: u8) -> Option<Span> {
        self.trails.parties.get(party).map(|_| Span(0))
    }

    fn holds(&self, party: u8) -> bool {
        self.keeps(party)
    }

    /// Of the room, the end asks for that of its own calendar.
    fn grant(
        &mut self,
        party: u8,
        spacing: Span,
        bounds: &[Span; 8],
        lead: Span,
    ) -> Result<(), Fault> {
        let known = self.trails.parties.get(party).is_some();
        let bad = bad_hop(self.first, 0, bounds, lead);
        check_terms(party, known, spacing, bad, self.busy())?;
        let trail = Trail::new(spacing, lead).unwrap();
        trail.check_room(self.trails.share(), party, END)?;
        self.trails.parties.set(party, Some(trail));
        Ok(())
    }

    fn withdraw(&mut self, party: u8) -> Result<(), Fault> {
        self.check_withdrawal(party)?;
        self.trails.forget(party);
        Ok(())
    }

    /// The cell waits for its eligible slot: a lead is shorter than the calendar, so there is room.
    fn enter(&mut self, header: &[u8], arrival: Slot) -> Result<(), Fault> {
        let arrived = Header::read(header)?;
        let trail = self.trails.contract(arrived.party)?;
        let cell = trail.check_arrival(&self.waiting, arrived, arrival)?;
        let _ = self.waiting.put(cell.party, cell.eligible, cell.label);
        let entered = trail.entering(cell.eligible);
        self.trails.parties.set(cell.party, Some(entered));
        Ok(())
    }

    /// The end sends nothing. Where no cell waits for the slot, no party is looked at.
    fn tick(
        &mut self,
        deliveries: &mut [Option<Delivery>; 16],
        sends: &mut [Option<Header>; 8],
    ) -> Result<(), Fault> {
        let slot = self.waiting.slot();
        if slot > Slot(LAST) {
            return Err(refused(Cause::SlotsOver, NO_PARTY, NO_HOP));
        }
        send_nothing(sends, self.first);
        *deliveries = [None; 16];
        if let Some(row) = self.waiting.next_day() {
            self.trails.deliver(&row, slot, deliveries);
        }
        Ok(())
    }

    fn reset(&mut self, first: u8) {
        *self = End::behind(first);
    }
}
