//! How trails are kept.

ghost use Rattle.std.specs.Prelude.{◌≡◌, None, slice_set};

use crate::trails::Trails;

impl Trails {
    /// Lets the trail of a party go.
    pub(crate) fn forget(&mut self, party: u8)
        ensures { self.new.parties.entries ≡ slice_set self.old.parties.entries party None }
    {
        self.parties.set(party, None);
    }
}
