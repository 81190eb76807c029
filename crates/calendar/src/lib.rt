//! Cells that wait for a slot, by party: a grid of 192 days by 16 parties.
#![tactic(auto)]

mod calls;
pub mod grid;
mod keeping;
mod lookups;
