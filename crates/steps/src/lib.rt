// One instruction at a time: amounts and their operations, the state of figures and clock, and the machine that
// performs each kind of instruction, exactly and for every meter. Its specs/ say what running code means.
#![tactic(auto)]

mod amounts;
mod ends;
mod events;
mod ledger;
pub mod machine;
pub mod state;
mod steps;
