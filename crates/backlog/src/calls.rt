//! How cells come and go.

ghost use Rattle.std.specs.Prelude.{◌≡◌, ◌<◌, ltb, [], ◌∷◌, ◌++◌, length, if◌then◌else◌, Some, MatchOption, nat_lt, slice_index_or};
ghost use Rattle.order.specs.First.{First, foremost};
ghost use Rattle.backlog.specs.Backlogs.{cells_of};
ghost use Rattle.backlog.specs.Cells.{Taken};

use crate::held::Held;
use crate::places::Backlog;
use cells::times::{Slot, Span};
use order::{Order, first};
use scheduler::terms::Cell;

/// How many cells a backlog has room for.
const ROOM: usize = 128;

impl Backlog {
    /// With no cell.
    pub fn new() -> Backlog
        ensures { cells_of result ≡ [] }
    {
        let blank = Held {
            cell: Cell {
                party: 0,
                label: 0,
                eligible: Slot(0),
            },
            bound: Span(1),
        };
        Backlog {
            places: [blank; 128],
            count: 0,
        }
    }

    // A test, and no error: there is one reason, which carries nothing, and the makes prove that there is room.
    /// Holds a cell, and answers whether there was room.
    pub fn push(&mut self, held: Held) -> bool
        ensures answer { result ≡ nat_lt (length (cells_of self.old)) 128 }
        ensures becomes { cells_of self.new ≡ (if ltb (length (cells_of self.old)) 128 then cells_of self.old ++ held ∷ [] else cells_of self.old) }
    {
        if self.count >= ROOM {
            return false;
        }
        self.places[self.count] = held;
        self.count += 1;
        true
    }

    /// Takes the first cell in the order out, and puts the cell at the last place into its place.
    pub fn take_first<O: Order<Held>>(&mut self, order: &O) -> Option<Held>
        ensures answer { result ≡ foremost (O.ahead order.now) (cells_of self.old) }
        ensures becomes { Taken (cells_of self.old) result (cells_of self.new) }
    {
        let place = self.foremost_place(order)?;
        Some(self.swap_remove(place))
    }

    // The place of the first cell in the order.
    fn foremost_place<O: Order<Held>>(&self, order: &O) -> Option<usize>
        ensures { MatchOption result (cells_of self.now ≡ []) (First (O.ahead order.now) (cells_of self.now) (length (cells_of self.now))) }
    {
        first(order, self.held())
    }

    // Takes the cell at a place out, and puts the cell at the last place into its place.
    fn swap_remove(&mut self, place: usize) -> Held
        requires { place < self.old.count }
        ensures answer { result ≡ slice_index_or (cells_of self.old) place result }
        ensures becomes { Taken (cells_of self.old) (Some result) (cells_of self.new) }
    {
        let held = self.places[place];
        let last = self.places[self.count - 1];
        self.places[place] = last;
        self.count -= 1;
        held
    }
}
