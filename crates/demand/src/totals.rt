//! Sums over a contract table.

ghost use Rattle.std.specs.Prelude.{◌≡◌, ℕ, IfSome};
ghost use Rattle.scheduler.specs.Laws.{Terms as Ranged};
ghost use Rattle.demand.specs.Counts.{ceil};
ghost use Rattle.demand.specs.Totals.{each_of, total_of, places, exceeds_table};

use crate::terms::Terms;
use cells::times::Span;
use scheduler::register::Register;
use scheduler::terms::Contract;

/// How many cells a scheduler's table has places for.
const TABLE: u64 = 128;

impl Terms {
    /// The most cells that come in so many slots.
    pub fn most_in(&self, span: Span) -> u32
        ensures { result ≡ ceil span.0 self.now.spacing.0 }
    {
        span.0.div_ceil(self.spacing.0)
    }
}

/// What a contract asks for, as a number: a count of cells that hangs on its terms alone.
pub trait Demand {
    // what a contract of this spacing and bound asks for
    ghost asks: { Self → ℕ → ℕ → ℕ };

    /// What a contract of these terms asks for.
    fn of(&self, terms: &Terms) -> u32
        ensures { result ≡ asks self.now terms.now.spacing.0 terms.now.bound.0 };
}

// What the contract asks for, nothing where there is none.
fn share<D: Demand>(demand: &D, contract: Option<Contract>) -> u32
    requires { IfSome contract Ranged }
    ensures { result ≡ each_of (D.asks demand.now) contract }
{
    contract.map_or(0, |granted| demand.of(&Terms::from_contract(granted)))
}

/// What all contracts of a register ask for together.
pub fn total<D: Demand>(register: &Register, demand: &D) -> u64
    ensures { result ≡ total_of (D.asks demand.now) register.now.contracts }
{
    register
        .contracts()
        .iter()
        .map(|contract| u64::from(share(demand, *contract)))
        .sum()
}

/// The places that the held cells of a contract may take up at a time.
#[derive(Drop)]
pub struct Places;

impl Demand for Places {
    ghost asks = { λ _. places };

    fn of(&self, terms: &Terms) -> u32 {
        terms.most_in(terms.bound)
    }
}

/// Whether the contracts of a register may want more places for their held cells than a table has.
pub fn exceeds_table(register: &Register) -> bool
    ensures { result ≡ exceeds_table register.now.contracts }
{
    total(register, &Places) > TABLE
}
