//! A scheduler that gives each contract turns of its own: slot k has turn k mod 128, and a turn
//! has one owner or none.
#![tactic(auto)]

pub mod calls;
pub mod keeping;
mod lookups;
pub mod owners;
mod search;
pub mod state;
