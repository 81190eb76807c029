//! The calls of a switch.

ghost use Rattle.std.specs.Prelude.{◌≡◌, ℕ, Option};
ghost use Rattle.scheduler.specs.Meaning.{fresh, told, after, granted, grant_verdict, withdrawn, withdraw_verdict, filled, put_verdict, stepped, serve_verdict};
ghost use Rattle.cells.specs.Makes.{make_of};
ghost use Rattle.switch.specs.Makes.{of_make, Aside};
ghost use Rattle.scheduler.specs.Laws.{InTime, InRange, Past, Consents, Own};
ghost use Rattle.switch.specs.Picks.{pick_each, pick_both};
ghost use Rattle.cells.specs.declared.faults.Cause.{Cause};
ghost use Rattle.std.proofs.Common.{rules};

use crate::state::Switch;
use cells::faults::Fault;
use cells::makes::Make;
use cells::times::{Slot, Span};
use scheduler::Scheduler;
use scheduler::terms::{Cell, Contract};

impl<E: Scheduler, S: Scheduler, T: Scheduler> Switch<E, S, T> {
    // A number, and not a `Make`: the rules number the make at its making, and take every number.
    /// A switch over one scheduler of each make, which behaves as the one of this number: 0 is
    /// EDF, 1 is SP, every other number is TABLE.
    pub fn new(number: u8, edf: E, sp: S, table: T) -> Switch<E, S, T>
        ensures make { result.make ≡ make_of number }
        ensures edf { result.edf ≡ edf }
        ensures sp { result.sp ≡ sp }
        ensures table { result.table ≡ table }
    {
        Switch {
            make: Make::from(number),
            edf,
            sp,
            table,
        }
    }
}

// Each call is a match: the rules have a switch hold one scheduler of each make, all three of types
// of their own, and a reference to the one meant could be handed out only as a `dyn`.
impl<E: Scheduler, S: Scheduler, T: Scheduler> Scheduler for Switch<E, S, T> {
    ghost meaning = { of_make E.Scheduler.meaning S.Scheduler.meaning T.Scheduler.meaning };

    ghost test = { of_make E.Scheduler.test S.Scheduler.test T.Scheduler.test };

    ghost choice = { of_make E.Scheduler.choice S.Scheduler.choice T.Scheduler.choice };

    ghost timely = { λ x. pick_each InTime x.make _ _ _ (E.Scheduler.timely x.edf) (S.Scheduler.timely x.sp) (T.Scheduler.timely x.table) };

    ghost contracted = { Prim.search rules };

    ghost ranged = { λ x. pick_each InRange x.make _ _ _ (E.Scheduler.ranged x.edf) (S.Scheduler.ranged x.sp) (T.Scheduler.ranged x.table) };

    ghost past = { λ x. pick_each Past x.make _ _ _ (E.Scheduler.past x.edf) (S.Scheduler.past x.sp) (T.Scheduler.past x.table) };

    ghost chosen = { Prim.search rules };

    ghost consents = { λ x. pick_both Consents x.make _ _ _ _ _ _ (E.Scheduler.consents x.edf) (S.Scheduler.consents x.sp) (T.Scheduler.consents x.table) };

    ghost own = { λ x p s d. pick_each (λ (t : ℕ → ℕ → ℕ → Option Cause). Own (t p s d)) x.make _ _ _ (E.Scheduler.own x.edf p s d) (S.Scheduler.own x.sp p s d) (T.Scheduler.own x.table p s d) };

    fn slot(&self) -> Slot {
        match self.make {
            Make::Edf => self.edf.slot(),
            Make::Sp => self.sp.slot(),
            Make::Table => self.table.slot(),
        }
    }

    fn contract(&self, party: u8) -> Option<Contract> {
        match self.make {
            Make::Edf => self.edf.contract(party),
            Make::Sp => self.sp.contract(party),
            Make::Table => self.table.contract(party),
        }
    }

    fn grant(&mut self, party: u8, spacing: Span, bound: Span) -> Result<(), Fault>
        ensures answer { result ≡ told (grant_verdict (of_make E.Scheduler.meaning S.Scheduler.meaning T.Scheduler.meaning self.old) party spacing.0 bound.0 (of_make E.Scheduler.test S.Scheduler.test T.Scheduler.test self.old party spacing.0 bound.0)) party tt }
        ensures becomes { of_make E.Scheduler.meaning S.Scheduler.meaning T.Scheduler.meaning self.new ≡ after (grant_verdict (of_make E.Scheduler.meaning S.Scheduler.meaning T.Scheduler.meaning self.old) party spacing.0 bound.0 (of_make E.Scheduler.test S.Scheduler.test T.Scheduler.test self.old party spacing.0 bound.0)) (of_make E.Scheduler.meaning S.Scheduler.meaning T.Scheduler.meaning self.old) (granted (of_make E.Scheduler.meaning S.Scheduler.meaning T.Scheduler.meaning self.old) party spacing.0 bound.0) }
        ensures make { self.new.make ≡ self.old.make }
        ensures aside { Aside self.old.make self.old.edf self.new.edf self.old.sp self.new.sp self.old.table self.new.table }
    {
        match self.make {
            Make::Edf => self.edf.grant(party, spacing, bound),
            Make::Sp => self.sp.grant(party, spacing, bound),
            Make::Table => self.table.grant(party, spacing, bound),
        }
    }

    fn withdraw(&mut self, party: u8) -> Result<(), Fault>
        ensures answer { result ≡ told (withdraw_verdict (of_make E.Scheduler.meaning S.Scheduler.meaning T.Scheduler.meaning self.old) party) party tt }
        ensures becomes { of_make E.Scheduler.meaning S.Scheduler.meaning T.Scheduler.meaning self.new ≡ after (withdraw_verdict (of_make E.Scheduler.meaning S.Scheduler.meaning T.Scheduler.meaning self.old) party) (of_make E.Scheduler.meaning S.Scheduler.meaning T.Scheduler.meaning self.old) (withdrawn (of_make E.Scheduler.meaning S.Scheduler.meaning T.Scheduler.meaning self.old) party) }
        ensures make { self.new.make ≡ self.old.make }
        ensures aside { Aside self.old.make self.old.edf self.new.edf self.old.sp self.new.sp self.old.table self.new.table }
    {
        match self.make {
            Make::Edf => self.edf.withdraw(party),
            Make::Sp => self.sp.withdraw(party),
            Make::Table => self.table.withdraw(party),
        }
    }

    fn put(&mut self, party: u8, label: u32) -> Result<(), Fault>
        ensures answer { result ≡ told (put_verdict (of_make E.Scheduler.meaning S.Scheduler.meaning T.Scheduler.meaning self.old) party) party tt }
        ensures becomes { of_make E.Scheduler.meaning S.Scheduler.meaning T.Scheduler.meaning self.new ≡ after (put_verdict (of_make E.Scheduler.meaning S.Scheduler.meaning T.Scheduler.meaning self.old) party) (of_make E.Scheduler.meaning S.Scheduler.meaning T.Scheduler.meaning self.old) (filled (of_make E.Scheduler.meaning S.Scheduler.meaning T.Scheduler.meaning self.old) party label) }
        ensures make { self.new.make ≡ self.old.make }
        ensures aside { Aside self.old.make self.old.edf self.new.edf self.old.sp self.new.sp self.old.table self.new.table }
    {
        match self.make {
            Make::Edf => self.edf.put(party, label),
            Make::Sp => self.sp.put(party, label),
            Make::Table => self.table.put(party, label),
        }
    }

    fn serve(&mut self) -> Result<Option<Cell>, Fault>
        ensures answer { result ≡ told (serve_verdict (of_make E.Scheduler.meaning S.Scheduler.meaning T.Scheduler.meaning self.old)) 255 (of_make E.Scheduler.choice S.Scheduler.choice T.Scheduler.choice self.old) }
        ensures becomes { of_make E.Scheduler.meaning S.Scheduler.meaning T.Scheduler.meaning self.new ≡ after (serve_verdict (of_make E.Scheduler.meaning S.Scheduler.meaning T.Scheduler.meaning self.old)) (of_make E.Scheduler.meaning S.Scheduler.meaning T.Scheduler.meaning self.old) (stepped (of_make E.Scheduler.meaning S.Scheduler.meaning T.Scheduler.meaning self.old) (of_make E.Scheduler.choice S.Scheduler.choice T.Scheduler.choice self.old)) }
        ensures make { self.new.make ≡ self.old.make }
        ensures aside { Aside self.old.make self.old.edf self.new.edf self.old.sp self.new.sp self.old.table self.new.table }
    {
        match self.make {
            Make::Edf => self.edf.serve(),
            Make::Sp => self.sp.serve(),
            Make::Table => self.table.serve(),
        }
    }

    fn reset(&mut self)
        ensures becomes { of_make E.Scheduler.meaning S.Scheduler.meaning T.Scheduler.meaning self.new ≡ fresh }
        ensures make { self.new.make ≡ self.old.make }
        ensures edf { E.Scheduler.meaning self.new.edf ≡ fresh }
        ensures sp { S.Scheduler.meaning self.new.sp ≡ fresh }
        ensures table { T.Scheduler.meaning self.new.table ≡ fresh }
    {
        self.edf.reset();
        self.sp.reset();
        self.table.reset();
    }
}
