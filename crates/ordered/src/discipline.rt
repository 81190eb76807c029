//! What makes that serve in an order differ in.

ghost use Rattle.std.specs.Prelude.{◌≡◌, ℕ, Bool, List, Option};
ghost use Rattle.cells.specs.declared.faults.Cause.{Cause};
ghost use Rattle.scheduler.specs.declared.terms.Cell.{Cell};
ghost use Rattle.scheduler.specs.declared.terms.Contract.{Contract};
ghost use Rattle.scheduler.specs.Meaning.{Meaning, told};
ghost use Rattle.scheduler.specs.Laws.{Own};
ghost use Rattle.backlog.specs.declared.held.Held.{Held};
ghost use Rattle.ordered.specs.Laws.{Tests, Alone, KeptIdle, KeptServed, KeptWithdrawn, KeptPut, Prompt, Served};

use backlog::held::Held;
use cells::faults::Fault;
use order::Order;
use scheduler::register::Register;

/// A discipline of service: the order in which held cells are served, and the test of the
/// contracts that would stand together.
///
/// That no cell is late rests on conditions, numbered from 0: EDF has one for each number of slots,
/// SP one for each level. Contracts that pass the test stay within the limit of each condition, and
/// where they do, each call keeps each condition.
pub trait Discipline: Order<Held> + Copy + Default {
    // the verdict on contracts that would stand together: none is consent
    ghost verdict: { List (Option Contract) → Option Cause };

    // what a contract counts for a condition, by its spacing and bound
    ghost asks: { ℕ → ℕ → ℕ → ℕ };

    // the most that all contracts may count for a condition
    ghost limit: { ℕ → ℕ };

    // whether a condition is kept, in a slot, by contracts and held cells
    ghost keeps: { ℕ → ℕ → List (Option Contract) → List Held → Bool };

    // what is said of the cell that is served
    ghost serves: { Meaning → Option Cell → Type 0 };

    /// Tests the contracts of a register, of which one is proposed by the party.
    fn admit(&self, register: &Register, party: u8) -> Result<(), Fault>
        ensures { result ≡ told (verdict register.now.contracts) party tt };

    // contracts that pass find places for their cells, and stay within each limit
    ghost tests: { Tests verdict asks limit };

    // a contract in range that stands alone passes
    ghost alone: { Alone verdict };

    // the test refuses with a make's own causes alone
    ghost own: { (cs : List (Option Contract)) → Own (verdict cs) };

    // each condition is kept while no cell is held
    ghost idle: { KeptIdle asks limit keeps };

    // and in a slot that ends with the first in the order served
    ghost served: { (o : Self) → KeptServed asks limit keeps (Self.ahead o) };

    // and by a withdrawal, of a party that holds nothing
    ghost withdrawn: { KeptWithdrawn asks limit keeps };

    // and by a put
    ghost put: { KeptPut asks limit keeps };

    // where they are kept, no held cell is due before the slot
    ghost prompt: { Prompt asks limit keeps };

    // what is said of the cell that is served is true of the first in the order
    ghost first: { (o : Self) → Served (Self.ahead o) serves };
}
