//! How a hop is made.

ghost use Rattle.std.specs.Prelude.{◌≡◌, ◌<◌, min, ◌∷◌, length};
ghost use Rattle.paths.specs.Route.{fresh};
ghost use Rattle.hops.specs.Hops.{hop_route};

use crate::crossings::Crossings;
use crate::hop::Hop;
use calendar::grid::Calendar;
use cells::limits::LINK_MAX;
use cells::times::Span;
use paths::Path;
use scheduler::Scheduler;

// A link, of at most 63 slots: a longer one counts as 63.
fn short(link: u8) -> Span
    ensures { result.0 ≡ min link 63 }
{
    Span(u32::from(link.min(LINK_MAX)))
}

impl<S: Scheduler, P: Path> Hop<S, P> {
    /// A hop with a link of so many slots before a path of at most seven hops. Its scheduler and
    /// the path are made fresh, and the hop is the front one, numbered 0.
    pub fn new(mut scheduler: S, link: u8, mut behind: P) -> Hop<S, P>
        requires { length (P.Path.route behind).links < 8 }
        ensures { hop_route S.Scheduler.meaning P.Path.route result ≡ fresh 0 (min link 63 ∷ (P.Path.route behind).links) }
    {
        scheduler.reset();
        behind.reset(1);
        Hop {
            number: 0,
            link: short(link),
            scheduler,
            waiting: Calendar::new(),
            crossings: Crossings::new(),
            behind,
        }
    }
}
