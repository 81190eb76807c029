//! The trails of the parties at the end.

use cells::parties::ByParty;
use paths::trail::Trail;

/// Of each party with a contract the trail of its cells; the last that was taken is the last
/// delivery.
#[derive(Clone, Copy)]
pub struct Trails {
    pub(crate) parties: ByParty<Trail>,
}
