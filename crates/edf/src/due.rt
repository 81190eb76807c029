//! The order in which held cells are served.

ghost use Rattle.edf.specs.Coming.{earlier};
ghost use Rattle.std.proofs.Common.{rules};

use backlog::held::Held;
use order::Order;

/// Held cells by due slot, then by party.
#[derive(Clone, Copy, Default)]
pub struct ByDue;

impl Order<Held> for ByDue {
    ghost ahead = { λ _. earlier };

    ghost asymmetric = { Prim.search rules };

    ghost transitive = { Prim.search rules };

    fn before(&self, x: &Held, y: &Held) -> bool {
        let (a, b) = (x.due(), y.due());
        a < b || a == b && x.cell.party < y.cell.party
    }
}
