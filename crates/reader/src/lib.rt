// The reader: bytes to a book that is well formed, or the first fault.
// It knows nothing of what a level or a charge means.
#![tactic(auto)]

mod decode;
mod fields;
mod layout;
mod parts;
pub mod reader;
pub mod rulebook;
mod scan;
mod weigh;
