//! The held cells of a scheduler that picks one in an order: the first places of a table of 128.
#![tactic(auto)]

mod calls;
pub mod held;
mod lookups;
pub mod places;
