// A scale and a meter made for tests alone: lawful, and unlike those that the other crates offer.
#![tactic(auto)]

pub mod diamond;
pub mod uneven;
