//! How a hop takes a cell that arrives.

ghost use Rattle.std.specs.Prelude.{◌≡◌, ◌+◌, ◌<◌, ◌≤◌, if◌then◌else◌, Some, None, nat_lt};
ghost use Rattle.calendar.specs.Days.{now_of, waiting_of};
ghost use Rattle.scheduler.specs.Meaning.{updated, filled, put_verdict};
ghost use Rattle.paths.specs.Route.{entered};
ghost use Rattle.paths.specs.Verdicts.{arrival_rule, answered, unless};
ghost use Rattle.hops.specs.Crossed.{crossings_of, Same};
ghost use Rattle.hops.specs.Hops.{hop_route};

use crate::crossing::Crossing;
use crate::crossings::Crossings;
use crate::hop::Hop;
use calendar::grid::Calendar;
use cells::faults::Fault;
use cells::times::Slot;
use header::Header;
use paths::Path;
use scheduler::Scheduler;
use scheduler::terms::Cell;

impl Crossing {
    /// The crossing once a cell has entered.
    fn entering(mut self, eligible: Slot) -> Crossing
        ensures same { Same self result }
        ensures latest { elim self.trail.latest [ None ↦ result.trail.latest ≡ Some eligible | Some a ↦ result.trail.latest ≡ (if nat_lt eligible.0 a.0 then Some a else Some eligible) ] }
        ensures last { result.trail.last ≡ self.trail.last }
    {
        self.trail = self.trail.entering(eligible);
        self
    }

    /// The crossing once a cell was taken in this slot, to be sent.
    pub(crate) fn taking(mut self, slot: Slot) -> Crossing
        ensures same { Same self result }
        ensures latest { result.trail.latest ≡ self.trail.latest }
        ensures last { result.trail.last ≡ Some slot }
    {
        self.trail = self.trail.taking(slot);
        self
    }
}

// The scheduler takes a cell that is eligible now; `crossing` has noted it.
fn hold<S: Scheduler>(scheduler: &mut S, crossings: &mut Crossings, cell: Cell, crossing: Crossing)
    requires party { cell.party < 16 }
    requires consent { put_verdict (S.Scheduler.meaning scheduler.old) cell.party ≡ None }
    ensures sched { S.Scheduler.meaning scheduler.new ≡ filled (S.Scheduler.meaning scheduler.old) cell.party cell.label }
    ensures crossings { crossings_of crossings.new ≡ updated (crossings_of crossings.old) cell.party (Some crossing) }
{
    scheduler.put(cell.party, cell.label).unwrap();
    crossings.set(cell.party, Some(crossing));
}

// A cell waits for its eligible slot; `crossing` has noted it.
fn keep(waiting: &mut Calendar, crossings: &mut Crossings, cell: Cell, crossing: Crossing)
    requires party { cell.party < 16 }
    requires soon { now_of waiting.old ≤ cell.eligible.0 }
    requires near { cell.eligible.0 < now_of waiting.old + 192 }
    ensures day { now_of waiting.new ≡ now_of waiting.old }
    ensures waits { waiting_of waiting.new ≡ updated (waiting_of waiting.old) cell.party (updated (waiting_of waiting.old cell.party) cell.eligible.0 (Some cell.label)) }
    ensures crossings { crossings_of crossings.new ≡ updated (crossings_of crossings.old) cell.party (Some crossing) }
{
    let _ = waiting.put(cell.party, cell.eligible, cell.label);
    crossings.set(cell.party, Some(crossing));
}

impl<S: Scheduler, P: Path> Hop<S, P> {
    /// Takes a cell that arrives, of a party that crosses this hop.
    pub(crate) fn receive(
        &mut self,
        crossing: Crossing,
        arrived: Header,
        arrival: Slot,
    ) -> Result<(), Fault>
        requires crosses { crossings_of self.old.crossings arrived.party ≡ Some crossing }
        requires party { arrived.party < 16 }
        ensures answer { result ≡ answered (arrival_rule (hop_route S.Scheduler.meaning P.Path.route self.old) ((hop_route S.Scheduler.meaning P.Path.route self.old).contracts arrived.party) arrived.party (arrival.0 + arrived.ahead.0)) }
        ensures becomes { hop_route S.Scheduler.meaning P.Path.route self.new ≡ unless (arrival_rule (hop_route S.Scheduler.meaning P.Path.route self.old) ((hop_route S.Scheduler.meaning P.Path.route self.old).contracts arrived.party) arrived.party (arrival.0 + arrived.ahead.0)) (hop_route S.Scheduler.meaning P.Path.route self.old) (entered (hop_route S.Scheduler.meaning P.Path.route self.old) arrived.party (arrival.0 + arrived.ahead.0) arrived.label) }
    {
        let cell = crossing
            .trail
            .check_arrival(&self.waiting, arrived, arrival)?;
        self.accept(crossing, cell);
        Ok(())
    }

    /// Takes a cell that is not refused: into the scheduler at once if it is eligible now, else it waits.
    fn accept(&mut self, crossing: Crossing, cell: Cell)
        requires crosses { crossings_of self.old.crossings cell.party ≡ Some crossing }
        requires party { cell.party < 16 }
        requires consent { arrival_rule (hop_route S.Scheduler.meaning P.Path.route self.old) ((hop_route S.Scheduler.meaning P.Path.route self.old).contracts cell.party) cell.party cell.eligible.0 ≡ None }
        ensures { hop_route S.Scheduler.meaning P.Path.route self.new ≡ entered (hop_route S.Scheduler.meaning P.Path.route self.old) cell.party cell.eligible.0 cell.label }
    {
        let noted = crossing.entering(cell.eligible);
        if cell.eligible == self.waiting.slot() {
            hold(
                &mut self.scheduler,
                &mut self.crossings,
                cell,
                noted.taking(cell.eligible),
            );
        } else {
            keep(&mut self.waiting, &mut self.crossings, cell, noted);
        }
    }
}
