// The banked registers: which register an access names, and who may reach it.
#![tactic(auto)]

pub mod cell;
pub mod right;
