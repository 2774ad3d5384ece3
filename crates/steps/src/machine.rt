// A machine at work: the amounts on the stack and the state.
use crate::state::State;
use stack::Stack;

// The meter is each step's argument and no part of this: held here, every step's contract would say that it stays.
#[derive(Drop)]
pub struct Machine {
    pub(crate) stack: Stack<i32>,
    pub(crate) state: State,
}
