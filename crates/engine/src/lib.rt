// The engine: it holds one checked book, runs its events, shows amounts and the clock to those who
// may see them, and lets the owner release one figure on purpose by a slip.
#![tactic(auto)]

pub mod engine;
pub mod slip;
