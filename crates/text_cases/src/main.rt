//! Reads a table of plans and traces, good and bad, and prints for each what they say.
#![tactic(auto)]

use std::fs;

/// What the plan and the trace in a folder say, under the folder's name.
fn show(rt: &HostRuntime, name: &str) -> anyhow::Result<()> {
    let heap = rt.alloc();
    let plan = fs::read(rt, format!(in heap; "{name}/plan.tsv")?)?;
    let trace = fs::read(rt, format!(in heap; "{name}/trace.tsv")?)?;
    let text = reports::report(heap, plan.as_slice(), trace.as_slice())?;
    print!(rt; "== {name}\n{text}")?;
    Ok(())
}

fn main(rt: HostRuntime) -> anyhow::Result<()> {
    let names = fs::read_to_string(&rt, "cases.txt")?;
    for name in names.as_str().lines() {
        show(&rt, name)?;
    }
    Ok(())
}
