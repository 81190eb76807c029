//! Reads a plan and a trace and prints what they say, or their first fault.
#![tactic(auto)]

use anyhow::anyhow;
use std::alloc::Global;
use std::{env, fs};

/// The two files, where no arguments name them.
const PLAN: &str = "plan.tsv";

const TRACE: &str = "trace.tsv";

/// A file's bytes; where it cannot be read, a message says so.
fn bytes_of(rt: &HostRuntime, path: &str) -> anyhow::Result<Vec<u8>> {
    let read = fs::read(rt, path);
    if let Err(e) = &read {
        eprintln!(rt; "replay: cannot read {path}: {e}")?;
    }
    Ok(read?)
}

/// Prints what the two files say.
fn run(rt: &HostRuntime, plan: &str, trace: &str) -> anyhow::Result<()> {
    let plan = bytes_of(rt, plan)?;
    let trace = bytes_of(rt, trace)?;
    let text = reports::report(rt.alloc(), plan.as_slice(), trace.as_slice())?;
    print!(rt; "{text}")?;
    Ok(())
}

fn main(rt: HostRuntime) -> anyhow::Result<()> {
    let mut args = env::args(&rt)?;
    let _program = args.next();
    match (args.next(), args.next(), args.next()) {
        (None, _, _) => run(&rt, PLAN, TRACE),
        (Some(plan), Some(trace), None) => run(&rt, plan.as_str(), trace.as_str()),
        _ => {
            eprintln!(rt; "usage: replay [PLAN TRACE]")?;
            Err(anyhow!("a plan and a trace, or neither"))
        }
    }
}
