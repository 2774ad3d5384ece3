// A stack of at most eight items in place, without allocation. A full stack refuses a push and an
// empty one answers None.
#![tactic(auto)]

mod eight;

pub use eight::Stack;
