//! The calls of a table of turns.

ghost use Rattle.std.specs.Prelude.{◌≡◌};
ghost use Rattle.scheduler.specs.Meaning.{fresh, told, after, granted, grant_verdict, withdrawn, withdraw_verdict, filled, put_verdict, stepped, serve_verdict};
ghost use Rattle.table.specs.Tables.{table_meaning, table_test, table_choice, owner_of};
ghost use Rattle.table.specs.Turns.{period as period-of, least_free, assigned_at, released, no_owner, turn};
ghost use Rattle.table.specs.Laws;
ghost use Rattle.table.specs.Helds.{cell_chosen};
ghost use Rattle.std.proofs.Common.{rules, arith};

use crate::keeping::{clear, keep};
use crate::owners::Owners;
use crate::search::period;
use crate::state::Table;
use cells::faults::{Cause, Fault};
use cells::parties::ByParty;
use cells::times::{Slot, Span};
use scheduler::Scheduler;
use scheduler::changes::refused;
use scheduler::register::Register;
use scheduler::terms::{Cell, Contract};

impl Table {
    /// At slot 0, without a contract, without a cell, and no turn has an owner.
    pub fn new() -> Table
        ensures meaning { table_meaning result ≡ fresh }
        ensures owners { owner_of result ≡ no_owner }
    {
        Table {
            register: Register::new(),
            owners: Owners::new(),
            labels: ByParty::new(),
        }
    }
}

impl Scheduler for Table {
    ghost meaning = { table_meaning };

    ghost test = { table_test };

    ghost choice = { table_choice };

    ghost timely = { Laws.timely };

    ghost contracted = { Laws.contracted };

    ghost ranged = { first_of (Prim.search rules, Prim.grind (arith, Self.row.coded.inj)) };

    ghost past = { Laws.past };

    ghost chosen = { λ x. cell_chosen (table_meaning x) (owner_of x (turn x.register.slot.0)) };

    ghost consents = { Laws.consents };

    ghost own = { first_of (Prim.search rules, Prim.grind (arith, Self.row.coded.inj)) };

    fn slot(&self) -> Slot {
        self.register.slot()
    }

    fn contract(&self, party: u8) -> Option<Contract> {
        self.register.contract(party)
    }

    /// The contract gets the turns of the least free offset under its period.
    fn grant(&mut self, party: u8, spacing: Span, bound: Span) -> Result<(), Fault>
        ensures answer { result ≡ told (grant_verdict (table_meaning self.old) party spacing.0 bound.0 (table_test self.old party spacing.0 bound.0)) party tt }
        ensures becomes { table_meaning self.new ≡ after (grant_verdict (table_meaning self.old) party spacing.0 bound.0 (table_test self.old party spacing.0 bound.0)) (table_meaning self.old) (granted (table_meaning self.old) party spacing.0 bound.0) }
        ensures owners { owner_of self.new ≡ after (grant_verdict (table_meaning self.old) party spacing.0 bound.0 (table_test self.old party spacing.0 bound.0)) (owner_of self.old) (assigned_at (owner_of self.old) (period-of spacing.0 bound.0) (least_free (owner_of self.old) (period-of spacing.0 bound.0)) party) }
    {
        let busy = self.busy();
        let register = self.register.with(party, spacing, bound, busy)?;
        let period = period(spacing, bound);
        let Some(offset) = self.owners.least_free_offset(period) else {
            return Err(refused(Cause::NoFreeOffset, party));
        };
        self.owners.assign(period, offset, party);
        self.register = register;
        Ok(())
    }

    /// The party's turns are given back.
    fn withdraw(&mut self, party: u8) -> Result<(), Fault>
        ensures answer { result ≡ told (withdraw_verdict (table_meaning self.old) party) party tt }
        ensures becomes { table_meaning self.new ≡ after (withdraw_verdict (table_meaning self.old) party) (table_meaning self.old) (withdrawn (table_meaning self.old) party) }
        ensures owners { owner_of self.new ≡ after (withdraw_verdict (table_meaning self.old) party) (owner_of self.old) (released (owner_of self.old) party) }
    {
        let holds = self.holds(party);
        self.register.withdraw(party, holds)?;
        self.owners.release(party);
        Ok(())
    }

    /// The owners stay.
    fn put(&mut self, party: u8, label: u32) -> Result<(), Fault>
        ensures answer { result ≡ told (put_verdict (table_meaning self.old) party) party tt }
        ensures becomes { table_meaning self.new ≡ after (put_verdict (table_meaning self.old) party) (table_meaning self.old) (filled (table_meaning self.old) party label) }
        ensures owners { owner_of self.new ≡ owner_of self.old }
    {
        self.register.put(party)?;
        keep(&mut self.labels, party, label);
        Ok(())
    }

    /// Answers the held cell of the present turn's owner. The owners stay.
    fn serve(&mut self) -> Result<Option<Cell>, Fault>
        ensures answer { result ≡ told (serve_verdict (table_meaning self.old)) 255 (table_choice self.old) }
        ensures becomes { table_meaning self.new ≡ after (serve_verdict (table_meaning self.old)) (table_meaning self.old) (stepped (table_meaning self.old) (table_choice self.old)) }
        ensures owners { owner_of self.new ≡ owner_of self.old }
    {
        let choice = self.choice();
        self.register.tick()?;
        if let Some(cell) = choice {
            clear(&mut self.labels, cell.party);
        }
        Ok(choice)
    }

    /// No turn has an owner then.
    fn reset(&mut self)
        ensures becomes { table_meaning self.new ≡ fresh }
        ensures owners { owner_of self.new ≡ no_owner }
    {
        *self = Table::new();
    }
}
