// How words spell numbers and bytes: what a script and a table of books are written in.
#![tactic(auto)]

mod bytes;
mod fault;
mod number;

pub use bytes::read_bytes;
pub use fault::SpellingFault;
pub use number::{Number, read_number, read_numbers};
