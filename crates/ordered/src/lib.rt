//! A scheduler that serves its held cells in an order: what a make of this kind has to say, and
//! the calls that every such make shares.
#![tactic(auto)]

pub mod calls;
pub mod discipline;
pub mod state;
