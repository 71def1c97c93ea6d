// What many Steps come to: how many of them are right, and what is wrong with the next one, if anything.
use state::refusal::Refusal;

#[derive(Clone, Copy, Debug, PartialEq, Eq)]
pub struct Run {
    pub right: u32,
    pub outcome: Result<(), Refusal>,
}
