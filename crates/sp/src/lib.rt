//! SP, a scheduler of one link that serves by levels. The level of a contract follows from its
//! bound; a held cell of a lower level goes before one of a higher.
#![tactic(auto)]

mod levels;
pub mod serving;
pub mod state;
