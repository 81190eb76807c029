//! A hop before any path is again a path.
#![tactic(auto)]

pub mod calls;
pub mod crossing;
pub mod crossings;
mod granting;
pub mod hop;
mod keeping;
mod making;
mod moving;
mod receiving;
