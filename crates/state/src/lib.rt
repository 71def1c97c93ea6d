// The state block by name: its places, the modes, the fields of its words, and when it is good.
// Nothing here knows of events but the numbers of what is answered to them.
#![tactic(auto)]

pub mod field;
pub mod mode;
pub mod place;
pub mod refusal;
pub mod state;
