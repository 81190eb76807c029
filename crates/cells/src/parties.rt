//! One entry for each party.

ghost use Rattle.std.specs.Prelude.{◌≡◌, ◌<◌, true, length, replicate, is_some, is_none, None, slice_index_or, slice_set, ⊤};
ghost use Rattle.std.specs.List.{list_all};

use crate::limits::LAST_PARTY;
use std::alloc::AllocError;

/// Of each party, 0 to 15, an entry or none.
pub struct ByParty<T> {
    entries: [Option<T>; 16],
    ghost whole: { length entries ≡ 16 },
}

// no derive: one is not given yet to a generic struct with a ghost field
impl<T: Copy> Clone for ByParty<T> {
    ghost is_clone = { λ x y. y ≡ x };

    ghost is_infallible = { λ _. ⊤ };

    fn clone(&self) -> Result<ByParty<T>, AllocError> {
        Ok(*self)
    }
}

impl<T: Copy> Copy for ByParty<T> {}

impl<T: Copy> ByParty<T> {
    /// No party has an entry.
    pub fn new() -> ByParty<T>
        ensures { result.entries ≡ replicate 16 None }
    {
        ByParty {
            entries: [None; 16],
        }
    }

    /// The entry of a party; none of a party above 15.
    pub fn get(&self, party: u8) -> Option<T>
        ensures value { result ≡ slice_index_or self.now.entries party None }
        ensures within { is_some result ≡ true → party < 16 }
    {
        *self.entries.get(usize::from(party))?
    }

    /// Sets the entry of a party. A party above 15 has none, whatever is set.
    pub fn set(&mut self, party: u8, entry: Option<T>)
        ensures { self.new.entries ≡ slice_set self.old.entries party entry }
    {
        if party <= LAST_PARTY {
            self.entries[usize::from(party)] = entry;
        }
    }

    /// Whether no party has an entry.
    pub fn is_empty(&self) -> bool
        ensures { result ≡ list_all is_none self.now.entries }
    {
        self.entries.iter().all(|entry| entry.is_none())
    }

    /// The entries, by party.
    pub fn entries(&self) -> &[Option<T>]
        ensures { result.now ≡ self.now.entries }
    {
        &self.entries[..]
    }
}
