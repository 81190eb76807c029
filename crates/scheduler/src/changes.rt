//! What the calls of a scheduler do to its register, and what every make refuses.

ghost use Rattle.std.specs.Prelude.{◌≡◌, ◌+◌, replicate, Some, None, MatchResult, slice_set};
ghost use Rattle.scheduler.specs.Meaning.{fault, told, after, updated, outside, common_verdict, withdraw_rule, put_rule, used, serve_rule};
ghost use Rattle.scheduler.specs.Tables.{contracts_of, Refuses, Extends};

use crate::register::Register;
use crate::terms::Contract;
use cells::faults::{Cause, Fault, Layer, NO_PARTY};
use cells::limits::{LAST, LAST_PARTY};
use cells::times::{Slot, Span};

/// The greatest spacing, in slots; the least is 1.
pub const SPACING_MAX: u32 = 1024;
/// The greatest bound, in slots; the least is 1.
pub const BOUND_MAX: u32 = 128;

/// The fault of a scheduler that refuses a party.
pub fn refused(cause: Cause, party: u8) -> Fault
    ensures { result ≡ fault cause party }
{
    Fault::of_party(cause, Layer::Scheduler, party)
}

/// Whether a span is below `least` or above `most` slots.
pub fn out_of_range(least: u32, most: u32, span: Span) -> bool
    ensures { result ≡ outside least most span.0 }
{
    span < Span(least) || span > Span(most)
}

impl Register {
    /// At slot 0, without a contract.
    pub fn new() -> Register
        ensures slot { result.slot.0 ≡ 0 }
        ensures table { result.contracts ≡ replicate 16 None }
        ensures contracts { contracts_of result.contracts ≡ (λ p. None) }
    {
        Register {
            slot: Slot(0),
            contracts: [None; 16],
        }
    }

    /// The register with a contract added. Refused are, in this order: a party above 15, one that
    /// has a contract, a spacing outside 1 to 1,024, a bound outside 1 to 128, and any contract
    /// while a cell is held (`busy`).
    pub fn with(&self, party: u8, spacing: Span, bound: Span, busy: bool) -> Result<Register, Fault>
        ensures { MatchResult result (λ t. Extends self.now.contracts t.contracts busy party spacing.0 bound.0 × (t.slot ≡ self.now.slot)) (Refuses (common_verdict (contracts_of self.now.contracts party) busy party spacing.0 bound.0) party) }
    {
        if party > LAST_PARTY {
            return Err(refused(Cause::PartyOutOfRange, party));
        }
        if self.contracts[party as usize].is_some() {
            return Err(refused(Cause::PartyHasContract, party));
        }
        if out_of_range(1, SPACING_MAX, spacing) {
            return Err(refused(Cause::SpacingOutOfRange, party));
        }
        if out_of_range(1, BOUND_MAX, bound) {
            return Err(refused(Cause::BoundOutOfRange, party));
        }
        if busy {
            return Err(refused(Cause::CellsPresent, party));
        }
        let mut more = *self;
        more.contracts[party as usize] = Some(Contract {
            spacing,
            bound,
            last: None,
        });
        Ok(more)
    }

    /// Removes the contract of a party, unless it has none, or a cell of it is held (`holds`).
    pub fn withdraw(&mut self, party: u8, holds: bool) -> Result<(), Fault>
        ensures answer { result ≡ told (withdraw_rule (contracts_of self.old.contracts party) holds) party tt }
        ensures slot { self.new.slot ≡ self.old.slot }
        ensures table { self.new.contracts ≡ after (withdraw_rule (contracts_of self.old.contracts party) holds) self.old.contracts (slice_set self.old.contracts party None) }
        ensures contracts { contracts_of self.new.contracts ≡ after (withdraw_rule (contracts_of self.old.contracts party) holds) (contracts_of self.old.contracts) (updated (contracts_of self.old.contracts) party None) }
    {
        if self.contract(party).is_none() {
            return Err(refused(Cause::NoContract, party));
        }
        if holds {
            return Err(refused(Cause::PartyHasCells, party));
        }
        self.contracts[party as usize] = None;
        Ok(())
    }

    /// Notes that a party puts a cell in this slot, and answers its contract as it was. Refused is
    /// a party without a contract, and a cell less than the spacing after the last.
    pub fn put(&mut self, party: u8) -> Result<Contract, Fault>
        ensures answer { MatchResult result (λ c. (contracts_of self.old.contracts party ≡ Some c) × (put_rule (contracts_of self.old.contracts party) self.old.slot.0 ≡ None)) (Refuses (put_rule (contracts_of self.old.contracts party) self.old.slot.0) party) }
        ensures slot { self.new.slot ≡ self.old.slot }
        ensures table { self.new.contracts ≡ after (put_rule (contracts_of self.old.contracts party) self.old.slot.0) self.old.contracts (slice_set self.old.contracts party (used (contracts_of self.old.contracts party) self.old.slot.0)) }
        ensures contracts { contracts_of self.new.contracts ≡ after (put_rule (contracts_of self.old.contracts party) self.old.slot.0) (contracts_of self.old.contracts) (updated (contracts_of self.old.contracts) party (used (contracts_of self.old.contracts party) self.old.slot.0)) }
    {
        let Some(contract) = self.contract(party) else {
            return Err(refused(Cause::NoContract, party));
        };
        if let Some(last) = contract.last {
            if self.slot < last + contract.spacing {
                return Err(refused(Cause::TooSoon, party));
            }
        }
        let slot = self.slot;
        if let Some(used) = &mut self.contracts[party as usize] {
            used.stamp(slot);
        }
        Ok(contract)
    }

    /// Ends the slot, unless every slot is over.
    pub fn tick(&mut self) -> Result<(), Fault>
        ensures answer { result ≡ told (serve_rule self.old.slot.0) 255 tt }
        ensures slot { self.new.slot.0 ≡ after (serve_rule self.old.slot.0) self.old.slot.0 (self.old.slot.0 + 1) }
        ensures table { self.new.contracts ≡ self.old.contracts }
    {
        if self.slot > Slot(LAST) {
            return Err(refused(Cause::SlotsOver, NO_PARTY));
        }
        self.slot = self.slot + Span(1);
        Ok(())
    }
}
