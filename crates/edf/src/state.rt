//! An EDF scheduler.

use crate::due::ByDue;
use ordered::state::Ordered;

/// An EDF scheduler: it serves the held cell that is due first.
pub type Edf = Ordered<ByDue>;
