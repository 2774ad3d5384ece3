// The machine that runs one event of a book: exact amounts and an exact clock, for every meter.
#![tactic(auto)]

mod events;
pub mod fault;
mod jumps;
pub mod program;
mod ready;
mod run;
