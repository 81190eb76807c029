//! The parties that cross a hop.

use crate::crossing::Crossing;
use cells::parties::ByParty;

/// Of each party, how it crosses the hop, if it does.
#[derive(Clone, Copy)]
pub struct Crossings {
    pub(crate) parties: ByParty<Crossing>,
}
