//! SP.

use crate::serving::ByLevel;
use ordered::state::Ordered;

/// A scheduler that serves by levels.
pub type Sp = Ordered<ByLevel>;
