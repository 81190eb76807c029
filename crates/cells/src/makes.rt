//! The makes of scheduler, by number and by name.

ghost use Rattle.std.specs.Prelude.{◌≡◌, Some};
ghost use Rattle.cells.specs.Makes.{make_of, make_name};

use std::fmt;

/// A make of scheduler: earliest due slot first, by levels, or by turns.
#[derive(Clone, Copy, PartialEq, Eq, Debug)]
pub enum Make {
    Edf,
    Sp,
    Table,
}

/// The make of a number: 0 is EDF, 1 is SP, every other number is TABLE.
impl From<u8> for Make {
    ghost from_gives = { λ number make. make ≡ make_of number };

    fn from(number: u8) -> Make {
        match number {
            0 => Make::Edf,
            1 => Make::Sp,
            _ => Make::Table,
        }
    }
}

/// The name that a plan gives a make.
impl fmt::Display for Make {
    ghost output = { λ make. Some (make_name make) };

    fn fmt<W: fmt::Write>(&self, f: &mut fmt::Formatter<W>) -> fmt::Result {
        f.write_str(match self {
            Make::Edf => "EDF",
            Make::Sp => "SP",
            Make::Table => "TABLE",
        })
    }
}
