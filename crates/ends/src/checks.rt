//! What the end refuses.

ghost use Rattle.std.specs.Prelude.{◌≡◌, ◌<◌, true, is_ok};
ghost use Rattle.calendar.specs.Days.{now_of};
ghost use Rattle.paths.specs.Verdicts.{answered, withdraw_rule};
ghost use Rattle.ends.specs.Ends.{trail_of, terms_in, still_in, still_any};

use crate::end::End;
use cells::faults::{Cause, Fault, NO_HOP};
use cells::limits::LAST_PARTY;
use cells::times::Span;
use paths::checks::refused;

impl End {
    /// Whether a cell of the party waits, by its trail.
    pub(crate) fn keeps(&self, party: u8) -> bool
        ensures { result ≡ still_in (trail_of self.now.trails party) (now_of self.now.waiting) }
    {
        self.trails
            .parties
            .get(party)
            .is_some_and(|trail| trail.still_on(Span(0), self.waiting.slot()))
    }

    /// Whether a cell of any party waits.
    pub(crate) fn busy(&self) -> bool
        ensures { result ≡ still_any (trail_of self.now.trails) (now_of self.now.waiting) }
    {
        (0..=LAST_PARTY).any(|party| self.keeps(party))
    }

    /// Refuses to take a contract back that is not there, or while a cell of the party waits.
    pub(crate) fn check_withdrawal(&self, party: u8) -> Result<(), Fault>
        ensures answer { result ≡ answered (withdraw_rule (terms_in (trail_of self.now.trails party)) (still_in (trail_of self.now.trails party) (now_of self.now.waiting)) party) }
        ensures within { is_ok result ≡ true → party < 16 }
    {
        self.trails.contract(party)?;
        if self.keeps(party) {
            return Err(refused(Cause::PartyHasCells, party, NO_HOP));
        }
        Ok(())
    }
}
