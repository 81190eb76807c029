//! A trace, and a trace while its lines come in.

ghost use Rattle.std.specs.Prelude.{◌≡◌, ℕ, true, length, slice_index_or};
ghost use Rattle.std.specs.List.{list_all};
ghost use Rattle.texts.specs.Traces.{line_ranged, never_falls, highest, slot_at};

use crate::forms::TraceLine;
use cells::times::Slot;

/// A trace: its lines in order, no party's slot ever falling.
#[derive(Drop)]
pub struct Trace {
    pub(crate) lines: Vec<TraceLine>,
    ghost ranged: { list_all line_ranged lines.items ≡ true },
    ghost order: { never_falls lines.items ≡ true },
}

/// The lines of a trace so far, and for each party the highest slot of its lines.
#[derive(Drop)]
pub struct Follow {
    pub(crate) trace: Trace,
    pub(crate) reached: [Slot; 16],
    ghost whole: { length reached ≡ 16 },
    ghost follows: { (p : ℕ) → (slice_index_or reached p (slot_at 0)).0 ≡ highest p trace.lines.items },
}
