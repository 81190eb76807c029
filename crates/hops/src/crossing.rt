//! What a hop keeps of a party that crosses it.

ghost use Rattle.std.specs.Prelude.{◌≤◌};

use cells::times::Span;
use paths::trail::Trail;

/// A party's contract at a hop that it crosses: the trail of its cells, whose last is the one put
/// into the scheduler; its bound at this hop; and its path constant from this hop on.
#[derive(Clone, Copy)]
pub struct Crossing {
    pub(crate) trail: Trail,
    pub(crate) bound: Span,
    pub(crate) constant: Span,
    ghost bounded: { 1 ≤ bound.0 },
    ghost prompt: { bound.0 ≤ 128 },
    ghost constants: { constant.0 ≤ 1528 },
}
