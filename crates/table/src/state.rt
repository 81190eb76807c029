//! The state of a table of turns.

ghost use Rattle.std.specs.Prelude.{◌≡◌, ℕ, ◌+◌, ◌≤◌, true, None, slice_index_or};
ghost use Rattle.scheduler.specs.Tables.{contracts_of};
ghost use Rattle.table.specs.Kept.{owner_in, wait, period_or, last_of, turn_by, dated, tenant};

use crate::owners::Owners;
use cells::parties::ByParty;
use scheduler::register::Register;

/// A scheduler by turns: the register, the owner of each turn, and of each party the label of the
/// cell held, which became eligible in the slot of the party's last cell.
#[derive(Clone, Copy)]
pub struct Table {
    pub(crate) register: Register,
    pub(crate) owners: Owners,
    pub(crate) labels: ByParty<u32>,
    ghost tenants: { (k : ℕ) → tenant (contracts_of register.contracts) (owner_in owners.turns k) ≡ true },
    ghost recurring: { (q k : ℕ) → wait (owner_in owners.turns) q k + 1 ≤ period_or (contracts_of register.contracts q) },
    ghost prompt: { (q : ℕ) → register.slot.0 ≤ turn_by register.slot.0 (wait (owner_in owners.turns) q) (last_of (contracts_of register.contracts q)) (slice_index_or labels.entries q None) },
    ghost dated: { (q : ℕ) → dated (last_of (contracts_of register.contracts q)) (slice_index_or labels.entries q None) ≡ true },
}
