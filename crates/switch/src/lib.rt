//! A scheduler that holds one of each make and behaves as the one numbered at its making.
#![tactic(auto)]

pub mod calls;
pub mod state;
