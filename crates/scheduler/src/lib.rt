//! A scheduler of one link: what it means, what its calls do to that, and what every make of
//! scheduler shares.
#![tactic(auto)]

ghost use Rattle.std.specs.Prelude.{◌≡◌, ℕ, Option};
ghost use Rattle.cells.specs.declared.faults.Cause.{Cause};
ghost use Rattle.scheduler.specs.declared.terms.Cell.{Cell};
ghost use Rattle.scheduler.specs.Meaning.{Meaning, fresh, told, after, granted, grant_verdict, withdrawn, withdraw_verdict, filled, put_verdict, stepped, serve_verdict};
ghost use Rattle.scheduler.specs.Laws.{InTime, Contracted, InRange, Past, Chosen, Consents, Own};

use crate::terms::{Cell, Contract};
use cells::faults::Fault;
use cells::times::{Slot, Span};

pub mod changes;
mod lookups;
pub mod register;
pub mod terms;

/// A scheduler of one link. Parties are granted contracts; the cells of a party with a contract
/// are put, and in each slot at most one held cell is served.
///
/// Each call states its answer and what the scheduler means afterwards, for every input. A
/// refusal leaves the meaning as it was.
pub trait Scheduler {
    // what it means: its slot, its contracts and its held cells
    ghost meaning: { Self → Meaning };

    // its own answer to a proposed contract (party, spacing, bound): none is consent
    ghost test: { Self → ℕ → ℕ → ℕ → Option Cause };

    // the held cell that `serve` would answer, or none
    ghost choice: { Self → Option Cell };

    /// The slot.
    fn slot(&self) -> Slot
        ensures { result.0 ≡ (meaning self.now).slot };

    /// The contract of a party.
    fn contract(&self, party: u8) -> Option<Contract>
        ensures { result ≡ (meaning self.now).contracts party };

    /// Adds a contract.
    fn grant(&mut self, party: u8, spacing: Span, bound: Span) -> Result<(), Fault>
        ensures answer { result ≡ told (grant_verdict (meaning self.old) party spacing.0 bound.0 (test self.old party spacing.0 bound.0)) party tt }
        ensures becomes { meaning self.new ≡ after (grant_verdict (meaning self.old) party spacing.0 bound.0 (test self.old party spacing.0 bound.0)) (meaning self.old) (granted (meaning self.old) party spacing.0 bound.0) };

    /// Takes a contract away.
    fn withdraw(&mut self, party: u8) -> Result<(), Fault>
        ensures answer { result ≡ told (withdraw_verdict (meaning self.old) party) party tt }
        ensures becomes { meaning self.new ≡ after (withdraw_verdict (meaning self.old) party) (meaning self.old) (withdrawn (meaning self.old) party) };

    /// Holds a cell of a party, eligible from this slot on.
    fn put(&mut self, party: u8, label: u32) -> Result<(), Fault>
        ensures answer { result ≡ told (put_verdict (meaning self.old) party) party tt }
        ensures becomes { meaning self.new ≡ after (put_verdict (meaning self.old) party) (meaning self.old) (filled (meaning self.old) party label) };

    /// Ends the slot: answers a held cell, which is held no more, or none.
    fn serve(&mut self) -> Result<Option<Cell>, Fault>
        ensures answer { result ≡ told (serve_verdict (meaning self.old)) 255 (choice self.old) }
        ensures becomes { meaning self.new ≡ after (serve_verdict (meaning self.old)) (meaning self.old) (stepped (meaning self.old) (choice self.old)) };

    /// Makes it fresh, whatever it held: slot 0, no contract, no cell. It stays of its make.
    fn reset(&mut self)
        ensures { meaning self.new ≡ fresh };

    // no held cell is due below the slot
    ghost timely: { (x : Self) → InTime (meaning x) };

    // only parties 0 to 15 have contracts, and only parties with a contract hold cells
    ghost contracted: { (x : Self) → Contracted (meaning x) };

    // spacings and bounds are in range, and so is the slot
    ghost ranged: { (x : Self) → InRange (meaning x) };

    // a held cell became eligible no later than the last cell of its party was put, and that no later than now
    ghost past: { (x : Self) → Past (meaning x) };

    // what is chosen is a held cell
    ghost chosen: { (x : Self) → Chosen (meaning x) (choice x) };

    // a scheduler without contracts consents to every contract in range
    ghost consents: { (x : Self) → Consents (meaning x) (test x) };

    // its own test refuses with its own causes alone
    ghost own: { (x : Self) (p s d : ℕ) → Own (test x p s d) };
}
