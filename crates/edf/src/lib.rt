//! EDF, a make of scheduler: the held cell that is due first goes first. It grants a contract if
//! the cells of all contracts can always be sent by their due slots.
#![tactic(auto)]

mod admission;
pub mod due;
pub mod state;
