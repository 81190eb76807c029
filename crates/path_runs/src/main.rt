//! Drives paths of one to three hops by a script, and prints what each command answered.
//!
//! A script has one command a line, its words parted by one blank: `PATH kind:link ..` for a fresh
//! path, from the front on; `GRANT party spacing lead` and eight bounds; `WITHDRAW party`; `ENTER`
//! with the bytes of a header and then the arrival slot; `TICK`; `RUN n` for n ticks, up to the first
//! that is refused; `HOLDS party`; and `RESET`, which makes the path fresh.
#![tactic(auto)]

ghost use Rattle.std.specs.Prelude.{◌≡◌, ◌+◌, ◌<◌, length};

use anyhow::{Context, bail};
use cells::faults::Fault;
use cells::times::{Slot, Span};
use ends::end::End;
use header::Header;
use hops::hop::Hop;
use makes::{AnyMake, make};
use paths::Path;
use paths::tables::Delivery;
use scheduler::Scheduler;
use std::alloc::Global;
use std::iter::Skip;
use std::str::{FromStr, Lines, Split};
use std::{fmt, fs};

/// What a call answered: `OK`, or `NO` and the numbers of the cause, the layer, the party and the hop.
#[derive(Clone, Copy)]
struct Answer(Result<(), Fault>);

impl fmt::Display for Answer {
    fn fmt<W: fmt::Write>(&self, f: &mut fmt::Formatter<W>) -> fmt::Result {
        match self.0 {
            Ok(()) => write!(f, "OK"),
            Err(fault) => write!(
                f,
                "NO\t{}\t{}\t{}\t{}",
                fault.cause.number(),
                fault.layer.number(),
                fault.party,
                fault.hop,
            ),
        }
    }
}

/// A line, with tabs in place of its blanks.
#[derive(Drop)]
struct Tabbed<'a>(&'a str);

impl fmt::Display for Tabbed<'_> {
    fn fmt<W: fmt::Write>(&self, f: &mut fmt::Formatter<W>) -> fmt::Result {
        for (place, word) in self.0.split(' ').enumerate() {
            if place > 0 {
                f.write_str("\t")?;
            }
            f.write_str(word)?;
        }
        Ok(())
    }
}

/// The next word of a command or of a place, which is to write a number.
fn word<'a>(words: &mut Split<'a, char>) -> anyhow::Result<&'a str> {
    words.next().context("a number is missing")
}

/// A hop of a `PATH` line.
#[derive(Clone, Copy)]
struct Place {
    // stays a number: the rules number a make at its making
    kind: u8,
    link: u8,
}

impl FromStr for Place {
    type Err = anyhow::Error;

    fn from_str(place: &str) -> anyhow::Result<Place> {
        let mut parts = place.split(':');
        Ok(Place {
            kind: word(&mut parts)?.parse()?,
            link: word(&mut parts)?.parse()?,
        })
    }
}

impl Place {
    /// The hop here, before a path.
    fn before<P: Path>(&self, behind: P) -> Hop<AnyMake, P>
        requires { length (P.Path.route behind).links < 8 }
        ensures { length (⟦<Hop<AnyMake, P> as Path>⟧.route result).links ≡ length (P.Path.route behind).links + 1 }
    {
        Hop::new(make(self.kind), self.link, behind)
    }
}

/// Says which hops sent a cell in the slot.
fn say_sent(rt: &HostRuntime, slot: u32, sends: &[Option<Header>; 8]) -> anyhow::Result<()> {
    for (hop, send) in sends.iter().enumerate() {
        if let Some(sent) = send {
            println!(rt;
                "SENT\t{slot}\t{hop}\t{}\t{}\t{}",
                sent.party, sent.ahead.0, sent.label
            )?;
        }
    }
    Ok(())
}

/// Says which parties were delivered a cell in the slot.
fn say_got(rt: &HostRuntime, slot: u32, deliveries: &[Option<Delivery>; 16]) -> anyhow::Result<()> {
    for got in deliveries.iter().flatten() {
        println!(rt; "GOT\t{slot}\t{}\t{}", got.party, got.label)?;
    }
    Ok(())
}

/// Ends the line of its command, and then so many slots, or as many as there are, and says what was
/// sent and delivered in each.
fn ticks<P: Path>(rt: &HostRuntime, path: &mut P, slots: u32) -> anyhow::Result<()> {
    rt.println("")?;
    for _ in 0..slots {
        let slot = path.slot().0;
        let mut deliveries = [None; 16];
        let mut sends = [None; 8];
        if let Err(fault) = path.tick(&mut deliveries, &mut sends) {
            println!(rt; "{}", Answer(Err(fault)))?;
            return Ok(());
        }
        say_sent(rt, slot, &sends)?;
        say_got(rt, slot, &deliveries)?;
    }
    Ok(())
}

/// The eight bounds that the next words write.
fn bounds_of(words: &mut Split<'_, char>) -> anyhow::Result<[Span; 8]> {
    let mut bounds = [Span(0); 8];
    for bound in &mut bounds {
        *bound = Span(word(words)?.parse()?);
    }
    Ok(bounds)
}

/// Carries out a `GRANT`, of which these are the words from the party on.
fn grant<P: Path>(path: &mut P, words: &mut Split<'_, char>) -> anyhow::Result<Answer> {
    let party = word(words)?.parse()?;
    let spacing = Span(word(words)?.parse()?);
    let lead = Span(word(words)?.parse()?);
    let bounds = bounds_of(words)?;
    Ok(Answer(path.grant(party, spacing, &bounds, lead)))
}

/// Carries out an `ENTER`: the last word is the arrival, those between are the bytes of a header.
fn enter<P: Path>(heap: Global, path: &mut P, line: &str) -> anyhow::Result<Answer> {
    let (before, arrival) = line.rsplit_once(' ').context("an arrival is missing")?;
    let arrival = Slot(arrival.parse()?);
    let header: Vec<u8> = before
        .split(' ')
        .skip(1)
        .map(|word| -> anyhow::Result<u8> { Ok(word.parse()?) })
        .try_collect(heap)?;
    Ok(Answer(path.enter(&header, arrival)))
}

/// Carries out a command, and ends its line with what it answered. Words past those that it wants
/// are not read.
fn obey<P: Path>(rt: &HostRuntime, path: &mut P, line: &str) -> anyhow::Result<()> {
    let mut words = line.split(' ');
    match words.next().unwrap_or("") {
        "GRANT" => println!(rt; "\t{}", grant(path, &mut words)?)?,
        "ENTER" => println!(rt; "\t{}", enter(rt.alloc(), path, line)?)?,
        "RESET" => {
            path.reset(0);
            rt.println("\tOK")?;
        }
        "TICK" => ticks(rt, path, 1)?,
        "RUN" => ticks(rt, path, word(&mut words)?.parse()?)?,
        verb => {
            let party: u8 = word(&mut words)?.parse()?;
            match verb {
                "WITHDRAW" => println!(rt; "\t{}", Answer(path.withdraw(party)))?,
                "HOLDS" => println!(rt; "\t{}", if path.holds(party) { "YES" } else { "NO" })?,
                _ => bail!("no such command"),
            }
        }
    }
    Ok(())
}

/// Carries out the commands of a path, up to the next `PATH`.
fn run<P: Path>(rt: &HostRuntime, path: &mut P, commands: Skip<Lines<'_>>) -> anyhow::Result<()> {
    for line in commands.take_while(|line| !line.starts_with("PATH ")) {
        print!(rt; "{}", Tabbed(line))?;
        obey(rt, path, line)?;
    }
    Ok(())
}

// A function for a path of each length, since each is a type of its own, so that no loop builds it.
// Not inlined: in one function, room for all three would be taken and cleared at each path.

/// Runs a path of one hop.
#[inline(never)]
fn run_one(rt: &HostRuntime, a: Place, commands: Skip<Lines<'_>>) -> anyhow::Result<()> {
    run(rt, &mut a.before(End::new()), commands)
}

/// Runs a path of two hops.
#[inline(never)]
fn run_two(rt: &HostRuntime, a: Place, b: Place, commands: Skip<Lines<'_>>) -> anyhow::Result<()> {
    run(rt, &mut a.before(b.before(End::new())), commands)
}

/// Runs a path of three hops.
#[inline(never)]
fn run_three(
    rt: &HostRuntime,
    a: Place,
    b: Place,
    c: Place,
    commands: Skip<Lines<'_>>,
) -> anyhow::Result<()> {
    run(rt, &mut a.before(b.before(c.before(End::new()))), commands)
}

/// Makes the path of the first line of a text, from the front on, and carries out its commands.
/// Places past the third are not read.
fn run_path(rt: &HostRuntime, text: &str) -> anyhow::Result<()> {
    let line = text.lines().next().unwrap_or("");
    println!(rt; "{}\tOK", Tabbed(line))?;
    let mut places = line.split(' ').skip(1).map(|place| place.parse::<Place>());
    let first = places.next().transpose()?;
    let second = places.next().transpose()?;
    let third = places.next().transpose()?;
    let commands = text.lines().skip(1);
    match (first, second, third) {
        (Some(a), Some(b), Some(c)) => run_three(rt, a, b, c, commands),
        (Some(a), Some(b), None) => run_two(rt, a, b, commands),
        (Some(a), None, _) => run_one(rt, a, commands),
        (None, _, _) => bail!("a path has one to three hops"),
    }
}

fn main(rt: HostRuntime) -> anyhow::Result<()> {
    let script = fs::read_to_string(&rt, "script.txt")?;
    for (at, _) in script.match_indices("PATH ") {
        // a line of a path begins with the word
        if let Some((before, text)) = script.split_at_checked(at)
            && (before.is_empty() || before.ends_with('\n'))
        {
            run_path(&rt, text)?;
        }
    }
    Ok(())
}
