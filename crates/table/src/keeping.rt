//! How the labels of held cells are kept.

ghost use Rattle.std.specs.Prelude.{◌≡◌, Some, None, slice_set};

use cells::parties::ByParty;

/// Keeps the label of a party's cell.
pub(crate) fn keep(labels: &mut ByParty<u32>, party: u8, label: u32)
    ensures { labels.new.entries ≡ slice_set labels.old.entries party (Some label) }
{
    labels.set(party, Some(label));
}

/// Lets the label of a party's cell go.
pub(crate) fn clear(labels: &mut ByParty<u32>, party: u8)
    ensures { labels.new.entries ≡ slice_set labels.old.entries party None }
{
    labels.set(party, None);
}
