// Exception entry: the codes of the events, what the routing of a synchronous one asks, and what an entry writes. How
// interrupts are found and which refusals there are is not known here.
#![tactic(auto)]

pub mod code;
pub mod enter;
pub mod entry;
pub mod offset;
pub mod route;
