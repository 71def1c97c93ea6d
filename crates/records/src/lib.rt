// What a trace is (document 01, "The trace"; document 02, Nos. 6 and 11): its layouts and records, what is said of any bytes as one, and
// what a session keeps of bytes that arrive. The code that judges stands in the crates above; all that is proved of traces, over any
// layout, stands here.
#![tactic(auto)]

pub mod layout;
pub mod report;
pub mod run;
pub mod session;
