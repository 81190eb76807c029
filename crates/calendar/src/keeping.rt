//! How one day's labels are kept.

ghost use Rattle.std.specs.Prelude.{◌≡◌, ℕ, ◌<◌, length, if◌then◌else◌, Some, None, nat_eq};
ghost use Rattle.scheduler.specs.Meaning.{updated};
ghost use Rattle.calendar.specs.Days.{label_at};
ghost use Rattle.calendar.specs.Rows.{row_of};

use cells::parties::ByParty;

/// Keeps the label of a party's cell on a day.
pub(crate) fn keep(days: &mut [Option<ByParty<u32>>], day: usize, party: u8, label: u32)
    requires within { day < length days.old }
    requires party { party < 16 }
    ensures { (k p : ℕ) → label_at days.new k p ≡ (if nat_eq k day then updated (label_at days.old k) party (Some label) p else label_at days.old k p) }
{
    days[day]
        .get_or_insert_with(|| ByParty::new())
        .set(party, Some(label));
}

/// Lets the labels of a day go, and answers them by party, if it has any.
pub(crate) fn take(days: &mut [Option<ByParty<u32>>], day: usize) -> Option<ByParty<u32>>
    requires { day < length days.old }
    ensures answer { (p : ℕ) → row_of result p ≡ label_at days.old day p }
    ensures empty { (k p : ℕ) → label_at days.new k p ≡ (if nat_eq k day then None else label_at days.old k p) }
{
    // no `take`, which moves the labels of an idle day as well: the end of one took twice the time
    let row = days[day]?;
    days[day] = None;
    Some(row)
}
