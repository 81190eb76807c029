//! The places of held cells.

ghost use Rattle.std.specs.Prelude.{◌≡◌, ◌≤◌, length};

use crate::held::Held;

// An array and a count: the rules fix the memory, and the kit's `ArrayVec` is not `Copy`, which the
// makes that hold a backlog are.
/// Held cells, in no order of their own: those at the first `count` places.
#[derive(Clone, Copy)]
pub struct Backlog {
    pub(crate) places: [Held; 128],
    pub(crate) count: usize,
    ghost whole: { length places ≡ 128 },
    ghost few: { count ≤ 128 },
}
