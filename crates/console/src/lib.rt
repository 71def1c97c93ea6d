// The C face: every exported function, thin and total. How it is done is the business of the crates below.
#![tactic(auto)]

pub mod batch;
pub mod check;
pub mod counting;
pub mod explanation;
pub mod feeding;
pub mod instructions;
pub mod recording;
pub mod step;
pub mod version;
