//! Levels, and the test of contracts by the levels at which they stand.

ghost use Rattle.std.specs.Prelude.{◌≡◌, ◌^◌, ◌<◌, ◌≤◌};
ghost use Rattle.sp.specs.Ends.{has_end};
ghost use Rattle.sp.specs.Keeps;
ghost use Rattle.sp.specs.Levels.{level, one_at, share, shares, overfull, levels_exceeded, sp_verdict};
ghost use Rattle.sp.specs.Served.{GoesFirst};

use crate::serving::ByLevel;
use cells::faults::{Cause, Fault};
use cells::times::Span;
use demand::terms::Terms;
use demand::totals::{Demand, exceeds_table, total};
use ordered::discipline::Discipline;
use scheduler::changes::refused;
use scheduler::register::Register;

/// How many levels there are.
const LEVELS: u32 = 8;

/// The level of a bound: the exponent of the greatest power of two not above it, 0 to 7.
pub(crate) fn level_of(bound: Span) -> u32
    requires least { 1 ≤ bound.0 }
    requires most { bound.0 ≤ 128 }
    ensures { result ≡ level bound.0 }
{
    31 - bound.0.leading_zeros()
}

/// Counts the contracts of a level.
#[derive(Drop)]
struct Standing {
    level: u32,
}

impl Demand for Standing {
    ghost asks = { λ x. one_at x.level };

    fn of(&self, terms: &Terms) -> u32 {
        u32::from(level_of(terms.bound) == self.level)
    }
}

/// The cells that contracts of a level or lower may put in a span.
#[derive(Drop)]
struct Share {
    level: u32,
    span: Span,
}

impl Demand for Share {
    ghost asks = { λ x. share x.level x.span.0 };

    fn of(&self, terms: &Terms) -> u32 {
        if level_of(terms.bound) <= self.level {
            terms.most_in(self.span)
        } else {
            0
        }
    }
}

// The span of a level: two to the level slots. `level < 8` is no type of its own here: the closure in
// `exceeds_levels` would have to make its values, and the proof there did not close.
fn span_of(level: u32) -> Span
    requires { level < 8 }
    ensures { result.0 ≡ 2 ^ level }
{
    Span(1 << level)
}

// The cells that the contracts of the level or lower may put in the level's span.
fn shares_at(register: &Register, level: u32) -> u64
    requires { level < 8 }
    ensures { result ≡ shares register.now.contracts level }
{
    let span = span_of(level);
    total(register, &Share { level, span })
}

// Whether a contract stands at the level, and those of the level or lower may put more cells in
// the level's span than can be sent in it.
fn is_overfull(register: &Register, level: u32) -> bool
    requires { level < 8 }
    ensures { result ≡ overfull register.now.contracts level }
{
    total(register, &Standing { level }) > 0
        && shares_at(register, level) > u64::from(span_of(level).0)
}

/// Whether some level at which a contract stands has more cells than slots.
pub(crate) fn exceeds_levels(register: &Register) -> bool
    ensures { result ≡ levels_exceeded register.now.contracts }
{
    (0..LEVELS).any(|level| is_overfull(register, level))
}

/// The test of contracts that would stand together: the places for their held cells first, then
/// each level at which one stands. Those of a level or lower may put no more cells in its span than
/// there are slots, and each level has an end until which its slots suffice.
impl Discipline for ByLevel {
    ghost verdict = { sp_verdict };

    ghost asks = { λ l. share l (2 ^ l) };

    ghost limit = { λ l. 2 ^ l };

    ghost keeps = { λ l t cs xs. has_end l cs xs t };

    ghost serves = { GoesFirst };

    ghost tests = { Keeps.tests };

    ghost alone = { Keeps.alone };

    ghost own = { Keeps.own };

    ghost idle = { Keeps.idle };

    ghost served = { λ _. Keeps.served };

    ghost withdrawn = { Keeps.withdrawn };

    ghost put = { Keeps.put };

    ghost prompt = { Keeps.prompt };

    ghost first = { λ _. Keeps.first };

    fn admit(&self, register: &Register, party: u8) -> Result<(), Fault> {
        if exceeds_table(register) {
            return Err(refused(Cause::TableExceeded, party));
        }
        if exceeds_levels(register) {
            return Err(refused(Cause::LevelExceeded, party));
        }
        Ok(())
    }
}
