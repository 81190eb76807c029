//! What the lines of a plan and a trace say.

use cells::limits;
use cells::makes::Make;
use cells::times::{Slot, Span};

/// The greatest party that a line may name.
pub(crate) const PARTY_MAX: u64 = limits::LAST_PARTY as u64;
/// The greatest link that a plan may give.
pub(crate) const LINK_MAX: u64 = limits::LINK_MAX as u64;
/// The greatest spacing or bound that a plan may give.
pub(crate) const TERM_MAX: u64 = limits::TERM_MAX as u64;
/// The greatest slot that a trace may give.
pub(crate) const SLOT_MAX: u64 = limits::LAST as u64;
/// The greatest label that a trace may give.
pub(crate) const LABEL_MAX: u64 = u32::MAX as u64;

/// A line `HOP kind link`.
#[derive(Clone, Copy)]
pub struct PlanHop {
    pub kind: Make,
    pub link: Span,
}

/// A line `PARTY number spacing bounds`: a bound for each hop of the plan, and 0 for each of
/// the eight that the plan lacks.
#[derive(Clone, Copy)]
pub struct PlanParty {
    pub number: u8,
    pub spacing: Span,
    pub bounds: [Span; 8],
}

/// A line of a plan.
#[derive(Clone, Copy)]
pub enum PlanEntry {
    Hop(PlanHop),
    Party(PlanParty),
}

/// A line `party slot label` of a trace: a cell that is offered.
#[derive(Clone, Copy)]
pub struct TraceLine {
    pub party: u8,
    pub slot: Slot,
    pub label: u32,
}
