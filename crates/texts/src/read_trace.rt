//! Reading a trace.

ghost use Rattle.std.specs.Prelude.{◌≡◌, ◌+◌, ◌^◌, ◌<◌, ◌≤◌, true, [], ◌∷◌, ◌++◌, length, IfOk, OnOk, OnErr};
ghost use Rattle.std.specs.List.{list_all};
ghost use Rattle.cells.specs.declared.faults.Layer.TheVariants.{Trace as InTrace};
ghost use Rattle.texts.specs.Fields.{pieces, numbers_of};
ghost use Rattle.texts.specs.Lines.{Told, ToldBy, in_line};
ghost use Rattle.texts.specs.Plans.{layout_of};
ghost use Rattle.texts.specs.Traces.{trace_numbers, trace_fields, line_ranged, never_falls, highest, added_to, trace_step, trace_of};
ghost use Rattle.texts.specs.Writing.{trace_written};
ghost use Rattle.texts.specs.TraceRead.{trace_lines};

use crate::fields::{body, ends_line, numbers};
use crate::forms::{LABEL_MAX, PARTY_MAX, SLOT_MAX, TraceLine};
use crate::plans::Plan;
use crate::refusals::Refusal;
use crate::traces::{Follow, Trace};
use cells::faults::{Cause, Layer, NO_LINE};
use cells::times::Slot;
use std::alloc::{AllocError, Global};

impl Trace {
    /// The lines, in order.
    pub fn lines(&self) -> &[TraceLine]
        ensures value { result.now ≡ trace_lines self.now }
        ensures ranged { list_all line_ranged result.now ≡ true }
        ensures order { never_falls result.now ≡ true }
    {
        self.lines.as_slice()
    }
}

/// The line that three numbers write.
fn line_of(all: &[u64]) -> Result<TraceLine, Cause>
    ensures { result ≡ trace_numbers all.now }
{
    let &[party, slot, label] = all else {
        return Err(Cause::LineForm);
    };
    if party > PARTY_MAX || slot > SLOT_MAX || label > LABEL_MAX {
        return Err(Cause::NumberOutOfRange);
    }
    Ok(TraceLine {
        party: party as u8,
        slot: Slot(slot as u32),
        label: label as u32,
    })
}

/// What a line says.
fn trace_line(heap: Global, text: &[u8]) -> Result<TraceLine, Refusal<Cause>>
    ensures { Told (trace_fields (numbers_of (pieces 9 text.now))) result }
{
    let all = numbers(heap, text)?.ok_or(Cause::LineForm)?;
    Ok(line_of(all.as_slice())?)
}

impl Trace {
    /// One line more, whose slot is not below an earlier one of its party.
    fn add(&mut self, line: TraceLine) -> Result<(), AllocError>
        requires ranged { line_ranged line ≡ true }
        requires rises { highest line.party (trace_lines self.old) ≤ line.slot.0 }
        ensures added { OnOk result (trace_lines self.new ≡ trace_lines self.old ++ line ∷ []) }
        ensures kept { OnErr result (trace_lines self.new ≡ trace_lines self.old) }
    {
        self.lines.push(line)?;
        Ok(())
    }
}

impl Follow {
    /// No line yet.
    fn new(heap: Global) -> Follow
        ensures { trace_lines result.trace ≡ [] }
    {
        Follow {
            trace: Trace {
                lines: Vec::new(heap),
            },
            reached: [Slot(0); 16],
        }
    }

    /// The number of the next line.
    fn next_line(&self) -> u32
        requires { length (trace_lines self.now.trace) < 2 ^ 16 }
        ensures { result ≡ length (trace_lines self.now.trace) + 1 }
    {
        self.trace.lines.len() as u32 + 1
    }

    /// One line more, whose slot is not below an earlier one of its party.
    fn add(&mut self, line: TraceLine) -> Result<(), AllocError>
        requires ranged { line_ranged line ≡ true }
        requires rises { highest line.party (trace_lines self.old.trace) ≤ line.slot.0 }
        ensures { OnOk result (trace_lines self.new.trace ≡ trace_lines self.old.trace ++ line ∷ []) }
    {
        self.trace.add(line)?;
        self.reached[usize::from(line.party)] = line.slot;
        Ok(())
    }

    /// One line more.
    fn add_line(&mut self, heap: Global, plan: &Plan, text: &[u8]) -> Result<(), Refusal<Cause>>
        ensures { ToldBy (λ _. trace_lines self.new.trace) (trace_step (layout_of plan.now).parties (trace_lines self.old.trace) text.now) result }
    {
        let entry = trace_line(heap, text)?;
        if !plan.lists(entry.party) || entry.slot < self.reached[usize::from(entry.party)] {
            return Err(Refusal::Faulty(Cause::LinePlace));
        }
        Ok(self.add(entry)?)
    }

    /// One line more, or the fault of the line.
    fn take_line(&mut self, heap: Global, plan: &Plan, text: &[u8]) -> Result<(), Refusal>
        requires { length (trace_lines self.old.trace) < 2 ^ 16 }
        ensures { ToldBy (λ _. trace_lines self.new.trace) (in_line InTrace (length (trace_lines self.old.trace) + 1) (trace_step (layout_of plan.now).parties (trace_lines self.old.trace) text.now)) result }
    {
        let line = self.next_line();
        self.add_line(heap, plan, text)
            .map_err(|refusal| refusal.in_line(Layer::Trace, line))
    }

    /// The trace.
    fn finish(self) -> Trace
        ensures { trace_lines result ≡ trace_lines self.trace }
    {
        let Follow { trace, reached: _ } = self;
        trace
    }
}

/// Reads a trace under a plan: what its text says, or its first fault. An empty text is a trace.
/// The text of a trace that was read is the one way to write it.
pub fn read_trace(heap: Global, plan: &Plan, text: &[u8]) -> Result<Trace, Refusal>
    ensures told { ToldBy trace_lines (trace_of (layout_of plan.now).parties text.now) result }
    ensures written { IfOk result (λ t. trace_written (trace_lines t) ≡ text.now) }
{
    let mut follow = Follow::new(heap);
    if text.is_empty() {
        return Ok(follow.finish());
    }
    let lines = body(text).ok_or(Refusal::in_trace(Cause::TextSizeOrEnd, NO_LINE))?;
    for text in lines.split(ends_line) {
        follow.take_line(heap, plan, text)?;
    }
    Ok(follow.finish())
}
