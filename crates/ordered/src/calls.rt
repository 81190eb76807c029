//! The calls of a scheduler that serves in an order.

ghost use Rattle.std.specs.Prelude.{◌≡◌, [], replicate, Some, None, slice_set, refl};
ghost use Rattle.scheduler.specs.Meaning.{fresh, told, after, agreed, used, granted, withdraw_verdict, withdrawn, put_verdict, filled, serve_verdict, stepped};
ghost use Rattle.scheduler.specs.Tables.{contracts_of};
ghost use Rattle.backlog.specs.Backlogs.{cells_of};
ghost use Rattle.backlog.specs.Cells.{holds_in};
ghost use Rattle.ordered.specs.States.{means, test_by, judged_by, grant_by, first_by, Tried};
ghost use Rattle.ordered.specs.Keeps;
ghost use Rattle.ordered.specs.Keeps.{chosen_of};
ghost use Rattle.std.proofs.Common.{arith, rules};

use crate::discipline::Discipline;
use crate::state::Ordered;
use backlog::held::Held;
use backlog::places::Backlog;
use cells::faults::Fault;
use cells::times::{Slot, Span};
use scheduler::Scheduler;
use scheduler::register::Register;
use scheduler::terms::{Cell, Contract};

impl<D: Discipline> Ordered<D> {
    /// At slot 0, without a contract and without a cell.
    pub fn new() -> Ordered<D>
        ensures meaning { means result.register result.backlog ≡ fresh }
        ensures table { result.register.contracts ≡ replicate 16 None }
        ensures held { cells_of result.backlog ≡ [] }
    {
        Ordered {
            register: Register::new(),
            backlog: Backlog::new(),
            discipline: D::default(),
        }
    }

    // The register with a contract added, unless it is one that every make refuses.
    fn trial(&self, party: u8, spacing: Span, bound: Span) -> Result<Register, Fault>
        ensures { Tried self.now.register self.now.backlog party spacing.0 bound.0 result }
    {
        let busy = !self.backlog.is_empty();
        self.register.with(party, spacing, bound, busy)
    }

    // A cell of the party, eligible in this slot.
    fn arrival(&self, party: u8, label: u32) -> Cell
        ensures { result ≡ record { party = party; label = label; eligible = self.now.register.slot } }
    {
        Cell {
            party,
            label,
            eligible: self.register.slot(),
        }
    }

    // Whether a cell of the party is held.
    fn holds(&self, party: u8) -> bool
        ensures { result ≡ holds_in (cells_of self.now.backlog) party }
    {
        self.backlog.holds(party)
    }
}

/// Its test is a function of what it means (clause `judged` of `grant`), so whoever knows its
/// contracts knows its answer to a proposed one. Beside what the trait says, each call states what
/// it leaves of the contract table, on which the test of a grant hangs, and `serve` what its
/// discipline says of the cell that it answers.
impl<D: Discipline> Scheduler for Ordered<D> {
    ghost meaning = { λ x. means x.register x.backlog };

    ghost test = { λ x. test_by D.verdict x.register.contracts };

    ghost choice = { λ x. first_by (D.ahead x.discipline) x.backlog };

    ghost timely = { λ x. Keeps.timely D.asks D.limit D.keeps D.prompt x.register (cells_of x.backlog) x.sound };

    ghost contracted = { λ x. Keeps.contracted D.asks D.limit D.keeps x.register (cells_of x.backlog) x.sound };

    ghost ranged = { first_of (Prim.search rules, Prim.grind (arith, Self.row.coded.inj)) };

    ghost past = { λ x. Keeps.past D.asks D.limit D.keeps x.register (cells_of x.backlog) x.sound };

    ghost chosen = { λ x. chosen_of (D.ahead x.discipline) x.register.slot.0 x.register.contracts (cells_of x.backlog) _ x.sound.orderly refl };

    ghost consents = { λ x none p s d low hs ms hd md. D.alone x.register.contracts p s d x.register.whole none low hs hd md };

    ghost own = { λ x p s d. D.own (slice_set x.register.contracts p (Some (agreed s d))) };

    fn slot(&self) -> Slot {
        self.register.slot()
    }

    fn contract(&self, party: u8) -> Option<Contract> {
        self.register.contract(party)
    }

    fn grant(&mut self, party: u8, spacing: Span, bound: Span) -> Result<(), Fault>
        ensures answer { result ≡ told (grant_by D.verdict self.old.register self.old.backlog party spacing.0 bound.0) party tt }
        ensures becomes { means self.new.register self.new.backlog ≡ after (grant_by D.verdict self.old.register self.old.backlog party spacing.0 bound.0) (means self.old.register self.old.backlog) (granted (means self.old.register self.old.backlog) party spacing.0 bound.0) }
        ensures table { self.new.register.contracts ≡ after (grant_by D.verdict self.old.register self.old.backlog party spacing.0 bound.0) self.old.register.contracts (slice_set self.old.register.contracts party (Some (agreed spacing.0 bound.0))) }
        ensures judged { test_by D.verdict self.old.register.contracts party spacing.0 bound.0 ≡ judged_by D.verdict (means self.old.register self.old.backlog) party spacing.0 bound.0 }
    {
        let trial = self.trial(party, spacing, bound)?;
        self.discipline.admit(&trial, party)?;
        self.register = trial;
        Ok(())
    }

    fn withdraw(&mut self, party: u8) -> Result<(), Fault>
        ensures answer { result ≡ told (withdraw_verdict (means self.old.register self.old.backlog) party) party tt }
        ensures becomes { means self.new.register self.new.backlog ≡ after (withdraw_verdict (means self.old.register self.old.backlog) party) (means self.old.register self.old.backlog) (withdrawn (means self.old.register self.old.backlog) party) }
        ensures table { self.new.register.contracts ≡ after (withdraw_verdict (means self.old.register self.old.backlog) party) self.old.register.contracts (slice_set self.old.register.contracts party None) }
    {
        let holds = self.holds(party);
        self.register.withdraw(party, holds)
    }

    fn put(&mut self, party: u8, label: u32) -> Result<(), Fault>
        ensures answer { result ≡ told (put_verdict (means self.old.register self.old.backlog) party) party tt }
        ensures becomes { means self.new.register self.new.backlog ≡ after (put_verdict (means self.old.register self.old.backlog) party) (means self.old.register self.old.backlog) (filled (means self.old.register self.old.backlog) party label) }
        ensures table { self.new.register.contracts ≡ after (put_verdict (means self.old.register self.old.backlog) party) self.old.register.contracts (slice_set self.old.register.contracts party (used (contracts_of self.old.register.contracts party) self.old.register.slot.0)) }
    {
        let cell = self.arrival(party, label);
        let contract = self.register.put(party)?;
        // There is room: the contracts want no more places than there are.
        let _ = self.backlog.push(Held {
            cell,
            bound: contract.bound,
        });
        Ok(())
    }

    fn serve(&mut self) -> Result<Option<Cell>, Fault>
        ensures answer { result ≡ told (serve_verdict (means self.old.register self.old.backlog)) 255 (first_by (D.ahead self.old.discipline) self.old.backlog) }
        ensures becomes { means self.new.register self.new.backlog ≡ after (serve_verdict (means self.old.register self.old.backlog)) (means self.old.register self.old.backlog) (stepped (means self.old.register self.old.backlog) (first_by (D.ahead self.old.discipline) self.old.backlog)) }
        ensures table { self.new.register.contracts ≡ self.old.register.contracts }
        ensures serves { D.serves (means self.old.register self.old.backlog) (first_by (D.ahead self.old.discipline) self.old.backlog) }
    {
        self.register.tick()?;
        Ok(
            self.backlog
                .take_first(&self.discipline)
                .map(|held| held.cell),
        )
    }

    fn reset(&mut self)
        ensures meaning { means self.new.register self.new.backlog ≡ fresh }
        ensures table { self.new.register.contracts ≡ replicate 16 None }
        ensures held { cells_of self.new.backlog ≡ [] }
    {
        *self = Ordered::new();
    }
}
