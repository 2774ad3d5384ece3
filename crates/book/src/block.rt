// The blocks of code.

// An open block: the first or the second part of an if, or the inside of a repeat.
#[derive(Clone, Copy, PartialEq, Eq, Debug)]
pub enum Block {
    FirstPart,
    SecondPart,
    Turns,
}
