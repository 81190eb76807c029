//! Why a text was not read.

ghost use Rattle.std.specs.Prelude.{◌≡◌};
ghost use Rattle.cells.specs.Faults.{text_fault};
ghost use Rattle.cells.specs.declared.faults.Layer.TheVariants.{Plan, Trace};
ghost use Rattle.texts.specs.Refusals.{refusal_in_line};
ghost use Rattle.texts.specs.declared.refusals.Refusal.TheVariants.{Faulty, NoMemory};

use cells::faults::{Cause, Fault, Layer};
use std::alloc::{AllocError, AllocFailed};

/// Why a text was not read: it has a fault, or there was no memory. Of a line alone only the
/// cause is told.
#[derive(Clone, Copy, Debug)]
pub enum Refusal<F = Fault> {
    Faulty(F),
    NoMemory,
}

impl Refusal {
    /// A fault of a plan.
    pub fn in_plan(cause: Cause, line: u32) -> Refusal
        ensures { result ≡ Faulty (text_fault cause Plan line) }
    {
        Refusal::Faulty(Fault::of_text(cause, Layer::Plan, line))
    }

    /// A fault of a trace.
    pub fn in_trace(cause: Cause, line: u32) -> Refusal
        ensures { result ≡ Faulty (text_fault cause Trace line) }
    {
        Refusal::Faulty(Fault::of_text(cause, Layer::Trace, line))
    }
}

impl Refusal<Cause> {
    /// The refusal of a text whose line was refused.
    pub(crate) fn in_line(self, layer: Layer, line: u32) -> Refusal
        ensures { result ≡ refusal_in_line layer line self }
    {
        match self {
            Refusal::Faulty(cause) => Refusal::Faulty(Fault::of_text(cause, layer, line)),
            Refusal::NoMemory => Refusal::NoMemory,
        }
    }
}

impl From<Cause> for Refusal<Cause> {
    ghost from_gives = { λ c r. r ≡ Faulty c };

    fn from(cause: Cause) -> Self {
        Self::Faulty(cause)
    }
}

impl From<Fault> for Refusal<Fault> {
    ghost from_gives = { λ f r. r ≡ Faulty f };

    fn from(fault: Fault) -> Self {
        Self::Faulty(fault)
    }
}

impl<F: Drop> From<AllocError> for Refusal<F> {
    ghost from_gives = { λ _ r. r ≡ NoMemory };

    fn from(_e: AllocError) -> Self {
        Self::NoMemory
    }
}

impl<F: Drop, T: Drop> From<AllocFailed<T>> for Refusal<F> {
    ghost from_gives = { λ _ r. r ≡ NoMemory };

    fn from(_e: AllocFailed<T>) -> Self {
        Self::NoMemory
    }
}
