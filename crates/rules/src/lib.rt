// The rules of a step as definitions (specs/), and what the functions of all events share: the event, the verdict and the
// answer that tells it, and an exception that is taken.
#![tactic(auto)]

pub mod answer;
pub mod event;
pub mod known;
pub mod rule;
pub mod taking;
pub mod verdict;
