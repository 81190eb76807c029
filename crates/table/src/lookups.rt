//! What a table of turns says of its cells.

ghost use Rattle.std.specs.Prelude.{◌≡◌, ◌<◌, IfSome};
ghost use Rattle.scheduler.specs.Meaning.{holds_of, holds_any};
ghost use Rattle.table.specs.Tables.{table_meaning, table_choice};

use crate::state::Table;
use scheduler::terms::Cell;

impl Table {
    /// Whether a cell of any party is held.
    pub(crate) fn busy(&self) -> bool
        ensures { result ≡ holds_any (table_meaning self.now) }
    {
        !self.labels.is_empty()
    }

    /// Whether a cell of the party is held.
    pub(crate) fn holds(&self, party: u8) -> bool
        ensures { result ≡ holds_of (table_meaning self.now) party }
    {
        self.labels.get(party).is_some()
    }

    /// The held cell of the present turn's owner, if any.
    pub(crate) fn choice(&self) -> Option<Cell>
        ensures value { result ≡ table_choice self.now }
        ensures within { IfSome result (λ c. c.party < 16) }
    {
        let party = self.owners.owner(self.register.slot())?;
        let eligible = self.register.contract(party)?.last?;
        let label = self.labels.get(party)?;
        Some(Cell {
            party,
            label,
            eligible,
        })
    }
}
