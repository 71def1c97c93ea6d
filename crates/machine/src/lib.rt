// One step of the machine: the block is judged, then the event's own function does the rest. What an event comes to is
// said in `rules`; the events stand in `synchronous`, `interrupt_check`, `access` and
// `exception_return`.
#![tactic(auto)]

pub mod step;
