//! What is kept of a party's cells where they wait.

ghost use Rattle.std.specs.Prelude.{◌≡◌, ◌≤◌, ◌||◌, not, IfSome, is_some, None};
ghost use Rattle.scheduler.specs.Meaning.{outside};

use crate::checks::LEAD_MAX;
use cells::times::{Slot, Span};
use scheduler::changes::{SPACING_MAX, out_of_range};

/// What a hop or the end keeps of a party whose cells wait there: the spacing and the lead of its
/// contract; the latest slot in which a cell that has entered here is or was eligible; and the
/// last slot in which one was taken from those that wait, to be sent or delivered.
#[derive(Clone, Copy)]
pub struct Trail {
    pub spacing: Span,
    pub lead: Span,
    pub latest: Option<Slot>,
    pub last: Option<Slot>,
    ghost spaced: { 1 ≤ spacing.0 },
    ghost near: { spacing.0 ≤ 1024 },
    ghost led: { 1 ≤ lead.0 },
    ghost soon: { lead.0 ≤ 191 },
}

impl Trail {
    /// The trail of a new contract: no cell has entered. None where the spacing or the lead is out
    /// of range.
    pub fn new(spacing: Span, lead: Span) -> Option<Trail>
        ensures some { is_some result ≡ not (outside 1 1024 spacing.0 || outside 1 191 lead.0) }
        ensures terms { IfSome result (λ t. (t.spacing ≡ spacing) × (t.lead ≡ lead)) }
        ensures unused { IfSome result (λ t. (t.latest ≡ None) × (t.last ≡ None)) }
    {
        if out_of_range(1, SPACING_MAX, spacing) || out_of_range(1, LEAD_MAX, lead) {
            return None;
        }
        Some(Trail {
            spacing,
            lead,
            latest: None,
            last: None,
        })
    }
}
