//! The order in which held cells are served.

ghost use Rattle.sp.specs.Levels.{precedes};
ghost use Rattle.std.proofs.Common.{rules};

use crate::levels::level_of;
use backlog::held::Held;
use order::Order;

/// The order of serving: the lower level, then the earlier eligible slot, then the lower party.
#[derive(Clone, Copy, Default)]
pub struct ByLevel;

impl Order<Held> for ByLevel {
    ghost ahead = { λ _. precedes };

    ghost asymmetric = { Prim.search rules };

    ghost transitive = { Prim.search rules };

    fn before(&self, x: &Held, y: &Held) -> bool {
        let (x_level, y_level) = (level_of(x.bound), level_of(y.bound));
        (x_level, x.cell.eligible, x.cell.party) < (y_level, y.cell.eligible, y.cell.party)
    }
}
