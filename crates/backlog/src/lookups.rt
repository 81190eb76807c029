//! What a backlog says of its cells.

ghost use Rattle.std.specs.Prelude.{◌≡◌, length, ◌==◌};
ghost use Rattle.backlog.specs.Backlogs.{cells_of};
ghost use Rattle.backlog.specs.Cells.{due_of, holds_in};

use crate::held::Held;
use crate::places::Backlog;
use cells::times::{Slot, Span};

impl Held {
    /// The slot in which it is due, the last in which it may be sent.
    pub fn due(&self) -> Slot
        ensures { result.0 ≡ due_of self.now }
    {
        self.cell.eligible + Span(self.bound.0 - 1)
    }
}

impl Backlog {
    /// The held cells, by place.
    pub(crate) fn held(&self) -> &[Held]
        ensures { result.now ≡ cells_of self.now }
    {
        &self.places[..self.count]
    }

    /// How many cells are held.
    pub fn len(&self) -> usize
        ensures { result ≡ length (cells_of self.now) }
    {
        self.count
    }

    /// Whether no cell is held.
    pub fn is_empty(&self) -> bool
        ensures { result ≡ (length (cells_of self.now) == 0) }
    {
        self.len() == 0
    }

    /// Whether a cell of the party is held.
    pub fn holds(&self, party: u8) -> bool
        ensures { result ≡ holds_in (cells_of self.now) party }
    {
        self.held().iter().any(|held| held.cell.party == party)
    }
}
