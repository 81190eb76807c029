//! Plans and traces: the text forms, and readers that answer for every text exactly what the
//! forms define.
#![tactic(auto)]

mod fields;
pub mod forms;
mod plan_lines;
pub mod plans;
pub mod read_plan;
pub mod read_trace;
pub mod refusals;
pub mod traces;
