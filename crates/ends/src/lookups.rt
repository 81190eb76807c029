//! What the trails say.

ghost use Rattle.std.specs.Prelude.{◌≡◌, ◌<◌, ◌≤◌, true, is_ok};
ghost use Rattle.std.specs.Option.{ok_or};
ghost use Rattle.cells.specs.declared.faults.Cause.TheVariants.{NoContract};
ghost use Rattle.paths.specs.Verdicts.{fault, share_of, shares};
ghost use Rattle.ends.specs.Ends.{trail_of, terms_in};

use crate::trails::Trails;
use cells::faults::{Cause, Fault, NO_HOP};
use paths::checks::refused;
use paths::trail::Trail;

/// How many cells can wait at once under a contract, if there is one.
fn share(trail: Option<Trail>) -> u32
    ensures value { result ≡ share_of (terms_in trail) }
    ensures few { result ≤ 191 }
{
    trail.map_or(0, |trail| trail.share())
}

impl Trails {
    /// The trail of a party, which is refused if it has none.
    pub(crate) fn contract(&self, party: u8) -> Result<Trail, Fault>
        ensures value { result ≡ ok_or (trail_of self.now party) (fault NoContract party 255) }
        ensures within { is_ok result ≡ true → party < 16 }
    {
        self.parties
            .get(party)
            .ok_or(refused(Cause::NoContract, party, NO_HOP))
    }

    /// How many cells can wait at once under all the contracts together.
    pub(crate) fn share(&self) -> u32
        ensures value { result ≡ shares share_of (λ q. terms_in (trail_of self.now q)) }
        ensures few { result ≤ 3056 }
    {
        self.parties
            .entries()
            .iter()
            .map(|trail| share(*trail))
            .sum()
    }
}
