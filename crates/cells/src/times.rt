//! Slots say when, spans say how long. A slot and a span add up to a slot, two slots differ
//! by a span, two spans add up to a span; nothing else is defined.

ghost use Rattle.std.specs.Prelude.{◌≡◌, ◌+◌, ◌-◌, ◌^◌, ◌<◌, ◌≤◌};

use std::ops::{Add, Sub};

/// A slot number: when something happens.
#[derive(Clone, Copy, PartialEq, Eq, PartialOrd, Ord, Debug)]
pub struct Slot(pub u32);

/// A number of slots: how long something lasts.
#[derive(Clone, Copy, PartialEq, Eq, PartialOrd, Ord, Debug)]
pub struct Span(pub u32);

impl Add<Span> for Slot {
    type Output = Slot;

    ghost can_add = { λ s d. s.0 + d.0 < 2 ^ 32 };

    ghost add_gives = { λ s d r. r.0 ≡ s.0 + d.0 };

    fn add(self, rhs: Span) -> Slot {
        Slot(self.0 + rhs.0)
    }
}

impl Sub<Slot> for Slot {
    type Output = Span;

    ghost can_sub = { λ s t. t.0 ≤ s.0 };

    ghost sub_gives = { λ s t r. r.0 ≡ s.0 - t.0 };

    fn sub(self, rhs: Slot) -> Span {
        Span(self.0 - rhs.0)
    }
}

impl Add<Span> for Span {
    type Output = Span;

    ghost can_add = { λ s d. s.0 + d.0 < 2 ^ 32 };

    ghost add_gives = { λ s d r. r.0 ≡ s.0 + d.0 };

    fn add(self, rhs: Span) -> Span {
        Span(self.0 + rhs.0)
    }
}
