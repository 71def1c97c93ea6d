// The interrupt check: which exceptions are pending, which of them can be taken, and whether the first goes to Hyp. The entry
// itself is in `interrupt_check`.
#![tactic(auto)]

pub mod check;
pub mod decision;
pub mod exception;
pub mod kind;
pub mod takeable;
