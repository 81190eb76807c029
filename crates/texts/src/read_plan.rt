//! Reading a plan.

ghost use Rattle.std.specs.Prelude.{◌≡◌, ◌+◌, ◌≤◌, true, length, IfOk};
ghost use Rattle.cells.specs.declared.faults.Layer.TheVariants.{Plan as InPlan};
ghost use Rattle.texts.specs.Lines.{ToldBy, in_line};
ghost use Rattle.texts.specs.Parties.{listed, apart, few_slots, known_parties, ranged};
ghost use Rattle.texts.specs.Plans.{layout_of, draft_of, blank, added_line, plan_step, plan_end, plan_of, lines_in};
ghost use Rattle.texts.specs.Writing.{plan_written};

use crate::fields::{body, ends_line};
use crate::forms::{PlanEntry, PlanHop, PlanParty};
use crate::plans::{Draft, Plan};
use crate::refusals::Refusal;
use cells::faults::{Cause, Layer, NO_LINE};
use cells::limits::{HOPS, PARTIES};
use std::alloc::Global;

impl Plan {
    /// The hops, in the order of their lines.
    pub fn hops(&self) -> &[PlanHop]
        ensures value { result.now ≡ (layout_of self.now).hops }
        ensures bound { (1 ≤ length result.now) × (length result.now ≤ 8) }
        ensures short { few_slots result.now ≡ true }
    {
        self.draft.hops.as_slice()
    }

    /// The parties, in the order of their lines.
    pub fn parties(&self) -> &[PlanParty]
        ensures value { result.now ≡ (layout_of self.now).parties }
        ensures bound { (1 ≤ length result.now) × (length result.now ≤ 16) }
        ensures once { apart result.now ≡ true }
        ensures known { known_parties result.now ≡ true }
    {
        self.draft.parties.as_slice()
    }

    /// Whether a party has a line.
    pub fn lists(&self, party: u8) -> bool
        ensures { result ≡ listed party (layout_of self.now).parties }
    {
        self.draft.lists(party)
    }
}

impl Draft {
    /// No line yet.
    fn new(heap: Global) -> Draft
        ensures { draft_of result ≡ blank }
    {
        Draft {
            hops: Vec::new(heap),
            parties: Vec::new(heap),
        }
    }

    /// Whether a party has a line.
    fn lists(&self, party: u8) -> bool
        ensures { result ≡ listed party (draft_of self.now).parties }
    {
        self.parties.iter().any(|other| other.number == party)
    }

    /// The number of the next line.
    fn next_line(&self) -> u32
        ensures { result ≡ lines_in (draft_of self.now) + 1 }
    {
        (self.hops.len() + self.parties.len() + 1) as u32
    }

    /// One hop more, where it may stand here.
    fn add_hop(&mut self, hop: PlanHop) -> Result<(), Refusal<Cause>>
        requires { ranged (PlanEntry.Hop hop) ≡ true }
        ensures { ToldBy (λ _. draft_of self.new) (added_line (draft_of self.old) (PlanEntry.Hop hop)) result }
    {
        if self.hops.len() >= HOPS || !self.parties.is_empty() {
            return Err(Refusal::Faulty(Cause::LinePlace));
        }
        self.hops.push(hop)?;
        Ok(())
    }

    /// One party more, where it may stand here.
    fn add_party(&mut self, party: PlanParty) -> Result<(), Refusal<Cause>>
        requires { ranged (PlanEntry.Party party) ≡ true }
        ensures { ToldBy (λ _. draft_of self.new) (added_line (draft_of self.old) (PlanEntry.Party party)) result }
    {
        if self.parties.len() >= PARTIES || self.lists(party.number) {
            return Err(Refusal::Faulty(Cause::LinePlace));
        }
        self.parties.push(party)?;
        Ok(())
    }

    /// One line more.
    fn add_line(&mut self, heap: Global, text: &[u8]) -> Result<(), Refusal<Cause>>
        ensures { ToldBy (λ _. draft_of self.new) (plan_step (draft_of self.old) text.now) result }
    {
        match self.plan_line(heap, text)? {
            PlanEntry::Hop(hop) => self.add_hop(hop),
            PlanEntry::Party(party) => self.add_party(party),
        }
    }

    /// One line more, or the fault of the line.
    fn take_line(&mut self, heap: Global, text: &[u8]) -> Result<(), Refusal>
        ensures { ToldBy (λ _. draft_of self.new) (in_line InPlan (lines_in (draft_of self.old) + 1) (plan_step (draft_of self.old) text.now)) result }
    {
        let line = self.next_line();
        self.add_line(heap, text)
            .map_err(|refusal| refusal.in_line(Layer::Plan, line))
    }

    /// The plan, where it has a hop and a party.
    fn finish(self) -> Result<Plan, Refusal>
        ensures { ToldBy layout_of (in_line InPlan (lines_in (draft_of self) + 1) (plan_end (draft_of self))) result }
    {
        if self.hops.is_empty() || self.parties.is_empty() {
            return Err(Refusal::in_plan(Cause::LinePlace, self.next_line()));
        }
        Ok(Plan { draft: self })
    }
}

/// Reads a plan: what its text says, or its first fault. The text of a plan that was read is the
/// one way to write it.
pub fn read_plan(heap: Global, text: &[u8]) -> Result<Plan, Refusal>
    ensures told { ToldBy layout_of (plan_of text.now) result }
    ensures written { IfOk result (λ p. plan_written (layout_of p) ≡ text.now) }
{
    let lines = body(text).ok_or(Refusal::in_plan(Cause::TextSizeOrEnd, NO_LINE))?;
    let mut draft = Draft::new(heap);
    for text in lines.split(ends_line) {
        draft.take_line(heap, text)?;
    }
    draft.finish()
}
