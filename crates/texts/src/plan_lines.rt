//! One line of a plan.

ghost use Rattle.std.specs.Prelude.{◌≡◌, ◌≤◌, true, length};
ghost use Rattle.texts.specs.Fields.{pieces, numbers_of};
ghost use Rattle.texts.specs.Lines.{Told};
ghost use Rattle.texts.specs.Plans.{draft_of};
ghost use Rattle.texts.specs.PlanLines.{kind_of, hop_fields, terms, eight_of, party_numbers, party_fields, plan_line};

use crate::fields::{cut, number, numbers};
use crate::forms::{LINK_MAX, PARTY_MAX, PlanEntry, PlanHop, PlanParty, TERM_MAX};
use crate::plans::Draft;
use crate::refusals::Refusal;
use cells::faults::Cause;
use cells::makes::Make;
use cells::times::Span;
use std::alloc::Global;

/// The make that a word names.
fn kind_of(word: &[u8]) -> Option<Make>
    ensures { result ≡ kind_of word.now }
{
    match word {
        b"EDF" => Some(Make::Edf),
        b"SP" => Some(Make::Sp),
        b"TABLE" => Some(Make::Table),
        _ => None,
    }
}

/// What stands behind `HOP` in a line.
fn hop_line(fields: &[u8]) -> Result<PlanEntry, Cause>
    ensures { result ≡ hop_fields (pieces 9 fields.now) }
{
    let (word, link) = cut(fields).ok_or(Cause::LineForm)?;
    let kind = kind_of(word).ok_or(Cause::LineForm)?;
    let link = number(link).ok_or(Cause::LineForm)?;
    if link > LINK_MAX {
        return Err(Cause::NumberOutOfRange);
    }
    Ok(PlanEntry::Hop(PlanHop {
        kind,
        link: Span(link as u32),
    }))
}

/// The bounds for eight hops: 0 for those behind the last.
fn eight(bounds: &[u64]) -> [Span; 8]
    requires few { length bounds.now ≤ 8 }
    requires small { terms bounds.now ≡ true }
    ensures { result ≡ eight_of bounds.now }
{
    // A `zip` with `iter_mut` tells a proof nothing of what it wrote; `array::from_fn` did not close.
    let mut all = [Span(0); 8];
    for (i, bound) in bounds.iter().enumerate() {
        all[i] = Span(*bound as u32);
    }
    all
}

impl Draft {
    /// The party that a line's numbers describe.
    fn party_of(&self, all: &[u64]) -> Result<PlanEntry, Cause>
        ensures { result ≡ party_numbers (length (draft_of self.now).hops) all.now }
    {
        let &[number, spacing, ref bounds @ ..] = all else {
            return Err(Cause::LineForm);
        };
        let hops = self.hops.len();
        if bounds.len() != hops {
            return Err(Cause::LineForm);
        }
        if number > PARTY_MAX
            || spacing > TERM_MAX
            || !bounds.iter().all(|bound| *bound <= TERM_MAX)
        {
            return Err(Cause::NumberOutOfRange);
        }
        Ok(PlanEntry::Party(PlanParty {
            number: number as u8,
            spacing: Span(spacing as u32),
            bounds: eight(bounds),
        }))
    }

    /// What stands behind `PARTY` in a line.
    fn party_line(&self, heap: Global, fields: &[u8]) -> Result<PlanEntry, Refusal<Cause>>
        ensures { Told (party_fields (length (draft_of self.now).hops) (numbers_of (pieces 9 fields.now))) result }
    {
        let all = numbers(heap, fields)?.ok_or(Cause::LineForm)?;
        Ok(self.party_of(all.as_slice())?)
    }

    /// What a line says, behind the lines so far.
    pub(crate) fn plan_line(&self, heap: Global, text: &[u8]) -> Result<PlanEntry, Refusal<Cause>>
        ensures { Told (plan_line (length (draft_of self.now).hops) (pieces 9 text.now)) result }
    {
        let (word, fields) = cut(text).ok_or(Cause::LineForm)?;
        match word {
            b"HOP" => Ok(hop_line(fields)?),
            b"PARTY" => self.party_line(heap, fields),
            _ => Err(Refusal::Faulty(Cause::LineForm)),
        }
    }
}
