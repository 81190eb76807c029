//! What every make of scheduler keeps alike: its slot and its contracts.

ghost use Rattle.std.specs.Prelude.{◌≡◌, ℕ, ◌+◌, ◌≤◌, length, None, slice_index_or};
ghost use Rattle.scheduler.specs.Meaning.{last_slot};
ghost use Rattle.scheduler.specs.Tables.{spacing_or, bound_or, last_or};

use crate::terms::Contract;
use cells::times::Slot;

// An array, and not `ByParty`: the rules have a party's element of the contract table lent in place.
/// The slot of a scheduler and its contract table, by party.
#[derive(Clone, Copy)]
pub struct Register {
    pub(crate) slot: Slot,
    pub(crate) contracts: [Option<Contract>; 16],
    ghost slots: { slot.0 ≤ last_slot + 1 },
    ghost whole: { length contracts ≡ 16 },
    ghost spaced: { (p : ℕ) → 1 ≤ spacing_or (slice_index_or contracts p None) },
    ghost near: { (p : ℕ) → spacing_or (slice_index_or contracts p None) ≤ 1024 },
    ghost bounded: { (p : ℕ) → 1 ≤ bound_or (slice_index_or contracts p None) },
    ghost prompt: { (p : ℕ) → bound_or (slice_index_or contracts p None) ≤ 128 },
    ghost past: { (p : ℕ) → last_or slot.0 (slice_index_or contracts p None) ≤ slot.0 },
}
