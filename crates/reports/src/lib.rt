//! What is said of a plan and a trace.
#![tactic(auto)]

ghost use Rattle.std.specs.Prelude.{◌≡◌, ◌^◌, ◌≤◌, IfOk, string_bytes};
ghost use Rattle.texts.specs.Lines.{ToldBy};
ghost use Rattle.texts.specs.Plans.{layout_of};
ghost use Rattle.texts.specs.TraceRead.{trace_lines};
ghost use Rattle.reports.specs.Reports.{hop_share, crossing_sum, said, told, report_of};

use cells::times::Span;
use std::alloc::{AllocError, Global};
use texts::forms::{PlanHop, PlanParty};
use texts::plans::Plan;
use texts::read_plan::read_plan;
use texts::read_trace::read_trace;
use texts::refusals::Refusal;
use texts::traces::Trace;

/// The sum of bound and link over the hops that a party crosses.
pub fn crossing_sum(plan: &Plan, party: &PlanParty) -> u64
    ensures { result ≡ crossing_sum (layout_of plan.now).hops party.now.bounds }
{
    plan.hops()
        .iter()
        .zip(party.bounds.iter())
        .map(|(hop, bound)| share(*hop, *bound))
        .sum()
}

/// Bound and link of a hop, where it is crossed.
fn share(hop: PlanHop, bound: Span) -> u64
    ensures value { result ≡ hop_share hop bound }
    ensures small { result ≤ 2 ^ 33 }
{
    if bound.0 == 0 {
        return 0;
    }
    u64::from(bound.0) + u64::from(hop.link.0)
}

/// What is said of a plan and a trace that were read.
fn summary(heap: Global, plan: &Plan, trace: &Trace) -> Result<String, AllocError>
    ensures { IfOk result (λ s. string_bytes s ≡ said (layout_of plan.now) (trace_lines trace.now)) }
{
    let mut out = String::new(heap);
    let hops = plan.hops();
    for (index, hop) in hops.iter().enumerate() {
        let PlanHop { kind, link } = *hop;
        writeln!(out, "HOP\t{index}\t{kind}\t{}", link.0)?;
    }
    let parties = plan.parties();
    for party in parties {
        let sum = crossing_sum(plan, party);
        writeln!(out, "PARTY\t{}\t{sum}", party.number)?;
    }
    let lines = trace.lines();
    for line in lines {
        writeln!(out, "LINE\t{}\t{}\t{}", line.party, line.slot.0, line.label)?;
    }
    Ok(out)
}

/// What the texts of a plan and a trace say.
fn told(heap: Global, plan: &[u8], trace: &[u8]) -> Result<String, Refusal>
    ensures { ToldBy string_bytes (told plan.now trace.now) result }
{
    let read = read_plan(heap, plan)?;
    let lines = read_trace(heap, &read, trace)?;
    Ok(summary(heap, &read, &lines)?)
}

/// What is said of the texts of a plan and a trace: a line for each hop, party and trace line,
/// or one line for the first fault.
pub fn report(heap: Global, plan: &[u8], trace: &[u8]) -> Result<String, AllocError>
    ensures { IfOk result (λ s. string_bytes s ≡ report_of plan.now trace.now) }
{
    match told(heap, plan, trace) {
        Ok(text) => Ok(text),
        Err(Refusal::Faulty(fault)) => format!(in heap; "{fault}\n"),
        Err(Refusal::NoMemory) => Err(AllocError),
    }
}
