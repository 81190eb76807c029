//! A held cell.

ghost use Rattle.std.specs.Prelude.{◌+◌, ◌≤◌};
ghost use Rattle.scheduler.specs.Meaning.{last_slot};

use cells::times::Span;
use scheduler::terms::Cell;

/// A held cell, with the bound of its party's contract.
#[derive(Clone, Copy)]
pub struct Held {
    pub cell: Cell,
    pub bound: Span,
    ghost slots: { cell.eligible.0 ≤ last_slot + 1 },
    ghost bounded: { 1 ≤ bound.0 },
    ghost prompt: { bound.0 ≤ 128 },
}
