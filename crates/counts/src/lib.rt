// A monthly count over all traces (document 02, No. 1): how often each event, each answer, each target mode and each
// interrupt stands in the accepted ones.
#![tactic(auto)]

pub mod count;
pub mod places;
mod tally;
mod totals;
