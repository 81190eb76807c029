//! A grant at a hop that the party crosses.

ghost use Rattle.std.specs.Prelude.{◌≡◌, ◌+◌, ◌≤◌, ◌∷◌, if◌then◌else◌, None, Ok, Err, nat_eq};
ghost use Rattle.scheduler.specs.Meaning.{withdrawn, withdraw_verdict};
ghost use Rattle.paths.specs.Verdicts.{bound as bound-given, answered, unless, admitted, grant_rule, grant_verdict, granted};
ghost use Rattle.hops.specs.Hops.{hop_route};

use crate::crossing::Crossing;
use crate::hop::Hop;
use cells::faults::{Fault, NO_HOP};
use cells::times::Span;
use paths::Path;
use paths::trail::Trail;
use scheduler::Scheduler;

// An answer of a hop's scheduler, which does not know the hop's number: it is filled in.
fn numbered(answer: Result<(), Fault>, number: u8) -> Result<(), Fault>
    ensures { result ≡ elim answer [ Ok u ↦ Ok u | Err f ↦ Err (record { cause = f.cause; layer = f.layer; party = f.party; hop = (if nat_eq f.hop 255 then number else f.hop); line = f.line }) ] }
{
    answer.map_err(|fault| Fault {
        hop: if fault.hop == NO_HOP {
            number
        } else {
            fault.hop
        },
        ..fault
    })
}

/// The leg of a party that crosses a hop: its bound there, and the hop's link.
#[derive(Clone, Copy)]
struct Leg {
    bound: Span,
    link: Span,
    ghost bounded: { 1 ≤ bound.0 },
    ghost prompt: { bound.0 ≤ 128 },
    ghost short: { link.0 ≤ 63 },
}

impl Leg {
    // The lead behind it: so far ahead a cell that is sent here is known there.
    fn lead(self) -> Span
        ensures { result.0 ≡ self.bound.0 + self.link.0 }
    {
        self.bound + self.link
    }
}

// Grants a contract on the path behind a leg.
fn onward<P: Path>(
    behind: &mut P,
    party: u8,
    trail: Trail,
    bounds: &[Span; 8],
    leg: Leg,
) -> Result<(), Fault>
    ensures answer { result ≡ answered (grant_verdict (P.Path.route behind.old) (P.Path.tests behind.old) party trail.spacing.0 bounds.now (leg.bound.0 + leg.link.0)) }
    ensures becomes { P.Path.route behind.new ≡ unless (grant_verdict (P.Path.route behind.old) (P.Path.tests behind.old) party trail.spacing.0 bounds.now (leg.bound.0 + leg.link.0)) (P.Path.route behind.old) (granted (P.Path.route behind.old) party trail.spacing.0 bounds.now (leg.bound.0 + leg.link.0)) }
{
    behind.grant(party, trail.spacing, bounds, leg.lead())
}

// What the path behind answered to a grant that the scheduler gave: where it refused, the
// scheduler's is taken back.
fn settled<S: Scheduler>(
    scheduler: &mut S,
    party: u8,
    answer: Result<(), Fault>,
) -> Result<(), Fault>
    requires { withdraw_verdict (S.Scheduler.meaning scheduler.old) party ≡ None }
    ensures same { result ≡ answer }
    ensures becomes { S.Scheduler.meaning scheduler.new ≡ elim answer [ Ok u ↦ S.Scheduler.meaning scheduler.old | Err f ↦ withdrawn (S.Scheduler.meaning scheduler.old) party ] }
{
    if answer.is_err() {
        scheduler.withdraw(party).unwrap();
    }
    answer
}

impl Crossing {
    // How a party crosses a hop by a leg, if the path constant behind it is `rest`.
    fn new(trail: Trail, leg: Leg, rest: Span) -> Crossing
        requires { rest.0 ≤ 1337 }
        ensures trail { result.trail ≡ trail }
        ensures bound { result.bound ≡ leg.bound }
        ensures constant { result.constant.0 ≡ leg.bound.0 + leg.link.0 + rest.0 }
    {
        Crossing {
            trail,
            bound: leg.bound,
            constant: leg.lead() + rest,
        }
    }
}

impl<S: Scheduler, P: Path> Hop<S, P> {
    /// Grants a contract to a party that crosses this hop, once its terms are checked: there must
    /// be room in the calendar, then the scheduler must consent, and then the path behind. If that
    /// refuses, the scheduler's grant is taken back.
    pub(crate) fn cross(
        &mut self,
        party: u8,
        trail: Trail,
        bound: Span,
        bounds: &[Span; 8],
    ) -> Result<(), Fault>
        requires checked { grant_rule (hop_route S.Scheduler.meaning P.Path.route self.old) party trail.spacing.0 bounds.now trail.lead.0 None ≡ None }
        requires bound { bound.0 ≡ bound-given bounds.now self.old.number }
        requires crossed { 1 ≤ bound.0 }
        requires latest { trail.latest ≡ None }
        requires last { trail.last ≡ None }
        ensures answer { result ≡ answered (admitted self.old.number (self.old.link.0 ∷ (P.Path.route self.old.behind).links) (S.Scheduler.test self.old.scheduler ∷ P.Path.tests self.old.behind) (hop_route S.Scheduler.meaning P.Path.route self.old).contracts party trail.spacing.0 bounds.now trail.lead.0) }
        ensures becomes { hop_route S.Scheduler.meaning P.Path.route self.new ≡ unless (admitted self.old.number (self.old.link.0 ∷ (P.Path.route self.old.behind).links) (S.Scheduler.test self.old.scheduler ∷ P.Path.tests self.old.behind) (hop_route S.Scheduler.meaning P.Path.route self.old).contracts party trail.spacing.0 bounds.now trail.lead.0) (hop_route S.Scheduler.meaning P.Path.route self.old) (granted (hop_route S.Scheduler.meaning P.Path.route self.old) party trail.spacing.0 bounds.now trail.lead.0) }
    {
        trail.check_room(self.crossings.load(), party, self.number)?;
        numbered(
            self.scheduler.grant(party, trail.spacing, bound),
            self.number,
        )?;
        let leg = Leg {
            bound,
            link: self.link,
        };
        let answer = onward(&mut self.behind, party, trail, bounds, leg);
        settled(&mut self.scheduler, party, answer)?;
        let rest = self.behind.constant(party).unwrap();
        let crossing = Crossing::new(trail, leg, rest);
        self.crossings.set(party, Some(crossing));
        Ok(())
    }
}
