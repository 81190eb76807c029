//! What contracts ask of a scheduler: how many cells they may bring, summed over a contract table,
//! and the places that their held cells may take up.
#![tactic(auto)]

pub mod terms;
pub mod totals;
