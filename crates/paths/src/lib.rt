//! A path: hops one after another, and the end that delivers. What it means, and what its calls do to that.
#![tactic(auto)]

ghost use Rattle.std.specs.Prelude.{◌≡◌, ℕ, ◌+◌, ◌≤◌, List, length, Option};
ghost use Rattle.header.specs.Headers.{header_of};
ghost use Rattle.paths.specs.Laws.{Lawful};
ghost use Rattle.paths.specs.Route.{Route, fresh, constant_in, ticked};
ghost use Rattle.paths.specs.Verdicts.{Test, answered, unless, holds_of, grant_verdict, granted, withdraw_verdict, withdrawn, enter_verdict, entered_by, tick_verdict, Delivers, Sends};

use crate::tables::Delivery;
use cells::faults::Fault;
use cells::times::{Slot, Span};
use header::Header;

pub mod bounds;
pub mod checks;
pub mod tables;
pub mod trail;
mod trailing;

/// A path, from some hop on: parties are granted contracts, cells enter with a header, and in each
/// slot every hop sends at most one cell and the end delivers what is to leave.
///
/// Each call states its answer and what the path means afterwards, for every input. A refusal
/// leaves the meaning, and the tables of a tick, as they were.
pub trait Path {
    // what it means: slot, links, contracts and cells
    ghost route: { Self → Route };

    // the tests of the schedulers at its hops, the front one first
    ghost tests: { Self → List Test };

    /// The slot.
    fn slot(&self) -> Slot
        ensures { result.0 ≡ (route self.now).slot };

    /// How many hops it has.
    fn hops(&self) -> u8
        ensures { result ≡ length (route self.now).links };

    /// The path constant of a party: the slots from its entry to its delivery. None without a contract.
    fn constant(&self, party: u8) -> Option<Span>
        ensures { result ≡ constant_in (route self.now).links ((route self.now).contracts party) };

    /// Whether a cell of the party is on the path.
    fn holds(&self, party: u8) -> bool
        ensures { result ≡ holds_of (route self.now) party };

    /// Adds a contract. Of the eight bounds, this path takes those of its own hops.
    fn grant(
        &mut self,
        party: u8,
        spacing: Span,
        bounds: &[Span; 8],
        lead: Span,
    ) -> Result<(), Fault>
        ensures answer { result ≡ answered (grant_verdict (route self.old) (tests self.old) party spacing.0 bounds.now lead.0) }
        ensures becomes { route self.new ≡ unless (grant_verdict (route self.old) (tests self.old) party spacing.0 bounds.now lead.0) (route self.old) (granted (route self.old) party spacing.0 bounds.now lead.0) };

    /// Takes a contract away, at every hop and at the end.
    fn withdraw(&mut self, party: u8) -> Result<(), Fault>
        ensures answer { result ≡ answered (withdraw_verdict (route self.old) party) }
        ensures becomes { route self.new ≡ unless (withdraw_verdict (route self.old) party) (route self.old) (withdrawn (route self.old) party) };

    /// Takes a cell that arrives in a slot, with its header.
    fn enter(&mut self, header: &[u8], arrival: Slot) -> Result<(), Fault>
        ensures answer { result ≡ answered (enter_verdict (route self.old) header.now arrival.0) }
        ensures becomes { route self.new ≡ unless (enter_verdict (route self.old) header.now arrival.0) (route self.old) (entered_by (route self.old) (header_of header.now) arrival.0) };

    /// Ends the slot: every hop sends a cell or none, and the end delivers. Hop n writes entry n of the send table. The send table says what each scheduler chose,
    /// and all else follows from it.
    fn tick(
        &mut self,
        deliveries: &mut [Option<Delivery>; 16],
        sends: &mut [Option<Header>; 8],
    ) -> Result<(), Fault>
        ensures answer { result ≡ answered (tick_verdict (route self.old)) }
        ensures becomes { route self.new ≡ unless (tick_verdict (route self.old)) (route self.old) (ticked (route self.old) sends.new) }
        ensures deliveries { Delivers (tick_verdict (route self.old)) (route self.old) deliveries.old deliveries.new }
        ensures sends { Sends (tick_verdict (route self.old)) (route self.old) sends.old sends.new };

    /// Makes it fresh, whatever it held, with so many hops in front of it: slot 0, no contract, no cell.
    fn reset(&mut self, first: u8)
        requires { first + length (route self.old).links ≤ 8 }
        ensures becomes { route self.new ≡ fresh first (route self.old).links };

    // what a route keeps: no cell is due at its hop below the slot, a party's cells leave a spacing apart, and all is in range
    ghost lawful: { (x : Self) → Lawful (route x) };
}
