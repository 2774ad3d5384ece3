// Scripts of calls: what each line asks of an engine, and what it is answered.
#![tactic(auto)]

mod call;
mod chosen;
mod command;
pub mod console;
mod desk;
mod lines;
pub mod play;
mod remarks;
pub mod reply;
