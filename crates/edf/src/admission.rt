//! EDF's own test of a proposed contract.

ghost use Rattle.std.specs.Prelude.{◌≡◌, ◌≤◌, IfSome, nat_le, nat_lt};
ghost use Rattle.edf.specs.Admission.{put_in, due_in, work_in, demand_in, busy_period, over_demand, test_of};
ghost use Rattle.edf.specs.Busy.{consented};
ghost use Rattle.edf.specs.Coming.{timely_in};
ghost use Rattle.edf.specs.Keeps;
ghost use Rattle.edf.specs.Laws;
ghost use Rattle.edf.specs.Served.{Earliest};

use crate::due::ByDue;
use cells::faults::{Cause, Fault};
use cells::times::Span;
use demand::terms::Terms;
use demand::totals::{Demand, exceeds_table, total};
use ordered::discipline::Discipline;
use scheduler::changes::refused;
use scheduler::register::Register;

/// The longest busy period, in slots.
const PERIOD_MAX: u32 = 1024;

/// The most cells that a contract puts in so many slots.
#[derive(Drop)]
struct PutIn(Span);

impl Demand for PutIn {
    ghost asks = { λ l. put_in l.0.0 };

    fn of(&self, terms: &Terms) -> u32 {
        terms.most_in(self.0)
    }
}

/// The most cells that a contract puts in so many slots and that are due in them.
#[derive(Drop)]
struct DueIn(Span);

impl Demand for DueIn {
    ghost asks = { λ l. due_in l.0.0 };

    fn of(&self, terms: &Terms) -> u32 {
        if terms.bound.0 > self.0.0 {
            return 0;
        }
        (self.0.0 - terms.bound.0) / terms.spacing.0 + 1
    }
}

/// Whether no more cells can be put in so many slots than there are slots.
fn keeps_up(register: &Register, slots: u32) -> bool
    ensures { result ≡ nat_le (work_in register.now.contracts slots) slots }
{
    total(register, &PutIn(Span(slots))) <= u64::from(slots)
}

/// The busy period: the least number of slots, from 1 to 1,024, in which no more cells can be put
/// than there are slots.
fn busy_period(register: &Register) -> Option<u32>
    ensures value { result ≡ busy_period register.now.contracts }
    ensures within { IfSome result (λ p. p ≤ 1024) }
{
    (1..=PERIOD_MAX).find(|slots| keeps_up(register, *slots))
}

/// Whether more cells can come and be due in so many slots than there are slots.
fn falls_behind(register: &Register, slots: u32) -> bool
    ensures { result ≡ nat_lt slots (demand_in register.now.contracts slots) }
{
    total(register, &DueIn(Span(slots))) > u64::from(slots)
}

/// Whether, in some number of slots up to the busy period, more cells can come and be due than
/// there are slots.
fn exceeds_demand(register: &Register, period: u32) -> bool
    requires { period ≤ 1024 }
    ensures { result ≡ over_demand register.now.contracts period }
{
    (1..=period).any(|slots| falls_behind(register, slots))
}

/// Contracts can all be kept if their held cells find places and no cell will ever be late: in any
/// number of slots no more cells can come and be due than there are slots, and before any slot from
/// now on, the held cells and those that can still come are due in no more than the slots till then.
impl Discipline for ByDue {
    ghost verdict = { test_of };

    ghost asks = { due_in };

    ghost limit = { λ n. n };

    ghost keeps = { timely_in };

    ghost serves = { Earliest };

    ghost tests = { consented };

    ghost alone = { Laws.alone };

    ghost own = { Laws.own };

    ghost idle = { Keeps.idle };

    ghost served = { λ _. Keeps.served };

    ghost withdrawn = { Keeps.withdrawn };

    ghost put = { Keeps.put };

    ghost prompt = { Keeps.prompt };

    ghost first = { λ _. Laws.first };

    fn admit(&self, register: &Register, party: u8) -> Result<(), Fault> {
        if exceeds_table(register) {
            return Err(refused(Cause::TableExceeded, party));
        }
        let Some(period) = busy_period(register) else {
            return Err(refused(Cause::NoBusyPeriod, party));
        };
        if exceeds_demand(register, period) {
            return Err(refused(Cause::DemandExceeded, party));
        }
        Ok(())
    }
}
