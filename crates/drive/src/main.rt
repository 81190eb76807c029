//! Drives the makes by a script, and prints what each command answered.
//!
//! A script has one command a line, its words parted by one blank: `MAKE number`,
//! `GRANT party spacing bound`, `WITHDRAW party`, `PUT party label`, `SERVE`, `IDLE n` for n slots
//! in which nothing is served, and `FLOW party n` for n slots, in each a put of the party.
#![tactic(auto)]

use anyhow::{Context, bail, ensure};
use cells::faults::Fault;
use cells::times::Span;
use makes::{AnyMake, make};
use scheduler::Scheduler;
use std::str::Split;
use std::{fmt, fs};

/// What a call answered, without a value: `OK`, or `NO` and the number of the cause.
#[derive(Clone, Copy)]
struct Answer(Result<(), Fault>);

impl fmt::Display for Answer {
    fn fmt<W: fmt::Write>(&self, f: &mut fmt::Formatter<W>) -> fmt::Result {
        match self.0 {
            Ok(()) => write!(f, "OK"),
            Err(fault) => write!(f, "NO\t{}", fault.cause.number()),
        }
    }
}

/// The next word of a command, which is to write a number.
fn word<'a>(words: &mut Split<'a, char>) -> anyhow::Result<&'a str> {
    words.next().context("a number is missing")
}

/// Ends the slot, and says which cell was served, and in which slot it was due.
fn serve(rt: &HostRuntime, any: &mut AnyMake) -> anyhow::Result<()> {
    match any.serve() {
        Ok(Some(cell)) => {
            let bound = any
                .contract(cell.party)
                .map_or(0, |contract| contract.bound.0);
            let due = (u64::from(cell.eligible.0) + u64::from(bound)).saturating_sub(1);
            println!(rt;
                "SERVE\tCELL\t{}\t{}\t{}\t{due}",
                cell.party, cell.label, cell.eligible.0
            )?;
        }
        Ok(None) => rt.println("SERVE\tNONE")?,
        Err(fault) => println!(rt; "SERVE\t{}", Answer(Err(fault)))?,
    }
    Ok(())
}

/// Ends so many slots, in which nothing is served.
fn idle(rt: &HostRuntime, any: &mut AnyMake, slots: u32) -> anyhow::Result<()> {
    for _ in 0..slots {
        ensure!(matches!(any.serve(), Ok(None)), "a slot was not idle");
    }
    println!(rt; "IDLE\t{slots}\tOK")?;
    Ok(())
}

/// Puts a cell of the party wherever its contract allows one and serves, so many slots long, and
/// says how many cells were accepted and served.
fn flow(rt: &HostRuntime, any: &mut AnyMake, party: u8, slots: u32) -> anyhow::Result<()> {
    let (mut accepted, mut served) = (0u32, 0u32);
    for label in 0..slots {
        if any.put(party, label).is_ok() {
            accepted = accepted.saturating_add(1);
        }
        if let Ok(Some(_)) = any.serve() {
            served = served.saturating_add(1);
        }
    }
    println!(rt; "FLOW\t{party}\t{slots}\tOK\t{accepted}\t{served}")?;
    Ok(())
}

/// Carries out the command of a party that these words go on with, and says what it answered.
fn obey_party(
    rt: &HostRuntime,
    any: &mut AnyMake,
    verb: &str,
    words: &mut Split<'_, char>,
) -> anyhow::Result<()> {
    let party: u8 = word(words)?.parse()?;
    match verb {
        "GRANT" => {
            let spacing: u32 = word(words)?.parse()?;
            let bound: u32 = word(words)?.parse()?;
            let answer = Answer(any.grant(party, Span(spacing), Span(bound)));
            println!(rt; "GRANT\t{party}\t{spacing}\t{bound}\t{answer}")?;
        }
        "WITHDRAW" => println!(rt; "WITHDRAW\t{party}\t{}", Answer(any.withdraw(party)))?,
        "FLOW" => flow(rt, any, party, word(words)?.parse()?)?,
        "PUT" => {
            let label: u32 = word(words)?.parse()?;
            println!(rt; "PUT\t{party}\t{label}\t{}", Answer(any.put(party, label)))?;
        }
        _ => bail!("no such command"),
    }
    Ok(())
}

/// Carries out a command other than `MAKE`. Words past those that it wants are not read.
fn obey(rt: &HostRuntime, any: &mut AnyMake, line: &str) -> anyhow::Result<()> {
    let mut words = line.split(' ');
    match words.next().unwrap_or("") {
        "SERVE" => serve(rt, any),
        "IDLE" => idle(rt, any, word(&mut words)?.parse()?),
        verb => obey_party(rt, any, verb, &mut words),
    }
}

fn main(rt: HostRuntime) -> anyhow::Result<()> {
    let script = fs::read_to_string(&rt, "script.txt")?;
    let mut any = make(0);
    for line in script.lines() {
        if let Some(number) = line.strip_prefix("MAKE ") {
            any = make(number.parse()?);
            println!(rt; "MAKE\t{number}\tOK")?;
        } else {
            obey(&rt, &mut any, line)?;
        }
    }
    Ok(())
}
