//! The end of a path: cells wait there until the slot in which they leave, and are delivered then.
#![tactic(auto)]

pub mod calls;
mod checks;
mod delivery;
pub mod end;
mod keeping;
mod lookups;
pub mod trails;
