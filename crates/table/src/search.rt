//! Periods, and how turns are found, taken and given back.

ghost use Rattle.std.specs.Prelude.{◌≡◌, ◌≤◌, min, replicate, None};
ghost use Rattle.table.specs.Kept.{owner_in};
ghost use Rattle.table.specs.Turns.{Greatest, greatest_power, turn, period as period-of, Found, assigned, released};

use crate::owners::Owners;
use cells::times::{Slot, Span};

/// How many turns there are: the turn of a slot is its remainder by this.
const TURNS: usize = 128;

/// The greatest power of two not above a number from 1 to 128.
fn greatest_power(number: u32) -> usize
    requires least { 1 ≤ number }
    requires most { number ≤ 128 }
    ensures value { result ≡ greatest_power number }
    ensures greatest { Greatest number result }
{
    1 << (31 - number.leading_zeros())
}

/// The period of a contract: the greatest power of two above neither its spacing nor its bound.
pub(crate) fn period(spacing: Span, bound: Span) -> usize
    requires spacing { 1 ≤ spacing.0 }
    requires bound { 1 ≤ bound.0 }
    requires prompt { bound.0 ≤ 128 }
    ensures value { result ≡ period-of spacing.0 bound.0 }
    ensures greatest { Greatest (min spacing.0 bound.0) result }
{
    greatest_power(spacing.0.min(bound.0))
}

impl Owners {
    /// No turn has an owner.
    pub(crate) fn new() -> Owners
        ensures { result.turns ≡ replicate 128 None }
    {
        Owners { turns: [None; 128] }
    }

    /// The owner of a slot's turn.
    pub(crate) fn owner(&self, slot: Slot) -> Option<u8>
        ensures { result ≡ owner_in self.now.turns (turn slot.0) }
    {
        self.turns[slot.0 as usize % TURNS]
    }

    /// The least free offset under a period. An offset is free if none of its turns, a period
    /// apart, has an owner.
    pub(crate) fn least_free_offset(&self, period: usize) -> Option<usize>
        requires least { 1 ≤ period }
        requires most { period ≤ 128 }
        ensures { Found (owner_in self.now.turns) period result }
    {
        'offsets: for offset in 0..period {
            for turn in (offset..TURNS).step_by(period) {
                if self.turns[turn].is_some() {
                    continue 'offsets;
                }
            }
            return Some(offset);
        }
        None
    }

    /// Gives a party the turns of an offset under a period.
    pub(crate) fn assign(&mut self, period: usize, offset: usize, party: u8)
        requires { 1 ≤ period }
        ensures { owner_in self.new.turns ≡ assigned (owner_in self.old.turns) period offset party }
    {
        for (turn, owner) in self.turns.iter_mut().enumerate() {
            if turn % period == offset {
                *owner = Some(party);
            }
        }
    }

    /// Takes its turns from a party.
    pub(crate) fn release(&mut self, party: u8)
        ensures { owner_in self.new.turns ≡ released (owner_in self.old.turns) party }
    {
        for owner in &mut self.turns {
            if *owner == Some(party) {
                *owner = None;
            }
        }
    }
}
