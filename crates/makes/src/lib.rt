//! The switch over the makes that there are.
#![tactic(auto)]

ghost use Rattle.std.specs.Prelude.{◌≡◌};
ghost use Rattle.scheduler.specs.Meaning.{fresh};
ghost use Rattle.cells.specs.Makes.{make_of};

use edf::state::Edf;
use scheduler::Scheduler;
use sp::state::Sp;
use switch::state::Switch;
use table::state::Table;

/// A scheduler of any make.
pub type AnyMake = Switch<Edf, Sp, Table>;

// A number, and not a `Make`: the rules number the make at its making, and take every number.
/// A fresh scheduler of the make with this number: 0 is EDF, 1 is SP, every other number is TABLE.
pub fn make(number: u8) -> AnyMake
    ensures make { result.make ≡ make_of number }
    ensures meaning { ⟦<Switch<Edf, Sp, Table> as Scheduler>⟧.meaning result ≡ fresh }
{
    Switch::new(number, Edf::new(), Sp::new(), Table::new())
}
