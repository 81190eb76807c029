//! The words that every layer shares: slots and spans, the limits of the regulated path,
//! and faults with their causes and layers.
#![tactic(auto)]

pub mod faults;
pub mod limits;
pub mod makes;
pub mod parties;
pub mod times;
