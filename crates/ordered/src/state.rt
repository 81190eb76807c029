//! What a scheduler that serves in an order holds.

ghost use Rattle.std.specs.Prelude.{◌≡◌};
ghost use Rattle.backlog.specs.Backlogs.{cells_of};
ghost use Rattle.ordered.specs.States.{Sound};

use crate::discipline::Discipline;
use backlog::places::Backlog;
use scheduler::register::Register;
use std::alloc::AllocError;

/// A scheduler that serves in the order of a discipline: its slot and contracts, and its held
/// cells.
///
/// A party's cells have different eligible slots (`single`) and are its spacing apart (`spaced`),
/// each is held under its contract's bound (`agreed`), and the contracts want no more places than
/// there are (`fits`). They stay within the limit of each condition of the discipline (`tested`),
/// and each condition is kept (`kept`).
pub struct Ordered<D: Discipline> {
    pub(crate) register: Register,
    pub(crate) backlog: Backlog,
    pub(crate) discipline: D,
    ghost sound: { Sound D.asks D.limit D.keeps register.slot.0 register.contracts (cells_of backlog) },
}

impl<D: Discipline> Clone for Ordered<D> {
    ghost use Rattle.std.specs.Bool.{⊤};

    ghost is_clone = { λ x y. y ≡ x };

    ghost is_infallible = { λ _. ⊤ };

    fn clone(&self) -> Result<Ordered<D>, AllocError> {
        Ok(*self)
    }
}

impl<D: Discipline> Copy for Ordered<D> {}
