//! A hop.

ghost use Rattle.std.specs.Prelude.{◌≤◌};
ghost use Rattle.calendar.specs.Days.{now_of, waiting_of};
ghost use Rattle.hops.specs.Crossed.{crossings_of};
ghost use Rattle.hops.specs.Joined.{parts};
ghost use Rattle.hops.specs.Level.{Sound};

use crate::crossings::Crossings;
use calendar::grid::Calendar;
use cells::times::Span;
use paths::Path;
use scheduler::Scheduler;

/// A hop before a path: its number, its link to what stands behind it, its scheduler, the cells
/// that wait until they are eligible, the parties that cross it, and the path behind.
#[derive(Drop)]
pub struct Hop<S: Scheduler, P: Path> {
    pub(crate) number: u8,
    pub(crate) link: Span,
    pub(crate) scheduler: S,
    pub(crate) waiting: Calendar,
    pub(crate) crossings: Crossings,
    pub(crate) behind: P,
    ghost short: { link.0 ≤ 63 },
    // its parts agree
    pub ghost sound: { ∥ Sound (now_of waiting) (parts number link.0 (S.Scheduler.meaning scheduler) (waiting_of waiting) (crossings_of crossings) (P.Path.route behind)) ∥₁ },
}
