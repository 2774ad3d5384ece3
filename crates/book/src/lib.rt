// What a rule book is: its instructions, the numbers they have in bytes, its events as trees, and which lists of
// bytes are books. The definitions are in specs/; the code here is what every later layer asks of instructions.
// Nothing here knows what a level or a charge means.
#![tactic(auto)]

pub mod block;
pub mod codes;
pub mod cursor;
pub mod instruction;
