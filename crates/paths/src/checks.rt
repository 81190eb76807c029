//! What every hop and the end refuse alike.

ghost use Rattle.std.specs.Prelude.{◌≡◌, ◌+◌, ◌≤◌, None, nat_lt};
ghost use Rattle.cells.specs.declared.faults.Cause.TheVariants.{CalendarExceeded};
ghost use Rattle.paths.specs.Verdicts.{fault, refused_if, share, common_rule, answered};

use crate::trail::Trail;
use cells::faults::{Cause, Fault, Layer, NO_HOP};
use cells::limits::LAST_PARTY;
use cells::times::Span;
use scheduler::changes::{SPACING_MAX, out_of_range};

/// The longest lead, in slots; the least is 1.
pub const LEAD_MAX: u32 = 191;
/// How many cells a calendar takes.
pub const CALENDAR: u32 = 192;
/// The number of the end, on every path.
pub const END: u8 = 8;

/// The fault of a hop or the end that refuses a party.
pub fn refused(cause: Cause, party: u8, hop: u8) -> Fault
    ensures { result ≡ fault cause party hop }
{
    Fault {
        hop,
        ..Fault::of_party(cause, Layer::Hop, party)
    }
}

impl Trail {
    /// How many cells can wait at once: the lead over the spacing, rounded up.
    pub fn share(&self) -> u32
        ensures value { result ≡ share self.now.lead.0 self.now.spacing.0 }
        ensures few { result ≤ 191 }
    {
        self.lead.0.div_ceil(self.spacing.0)
    }

    /// Refuses this trail to a new contract where its cells could outgrow the calendar of a hop or
    /// the end beside the cells of the others, of which `others` can wait at once.
    pub fn check_room(&self, others: u32, party: u8, hop: u8) -> Result<(), Fault>
        ensures { result ≡ answered (refused_if (nat_lt 192 (others + share self.now.lead.0 self.now.spacing.0)) (fault CalendarExceeded party hop) None) }
    {
        if others.saturating_add(self.share()) > CALENDAR {
            return Err(refused(Cause::CalendarExceeded, party, hop));
        }
        Ok(())
    }
}

/// What is refused before any room is asked for, in this order: a party above 15, one that has a
/// contract here (`known`), a spacing outside 1 to 1,024, a bad bound or lead (`bad` is the hop),
/// and any contract while a cell is on the path (`busy`).
pub fn check_terms(
    party: u8,
    known: bool,
    spacing: Span,
    bad: Option<u8>,
    busy: bool,
) -> Result<(), Fault>
    ensures { result ≡ answered (common_rule known bad busy party spacing.0 None) }
{
    if party > LAST_PARTY {
        return Err(refused(Cause::PartyOutOfRange, party, NO_HOP));
    }
    if known {
        return Err(refused(Cause::PartyHasContract, party, NO_HOP));
    }
    if out_of_range(1, SPACING_MAX, spacing) {
        return Err(refused(Cause::SpacingOutOfRange, party, NO_HOP));
    }
    if let Some(hop) = bad {
        return Err(refused(Cause::BoundOutOfRange, party, hop));
    }
    if busy {
        return Err(refused(Cause::CellsPresent, party, NO_HOP));
    }
    Ok(())
}
