// A machine at the start of an event, at the end of a block, and back in the state that it leaves.
ghost use Rattle.steps.specs.Machines.{emptied};
ghost use Rattle.steps.specs.Runs.{left, started};
ghost use Rattle.steps.specs.Seen.{machine_of, state_of};
ghost use Rattle.std.specs.Prelude.{◌≡◌};

use crate::machine::Machine;
use crate::state::State;
use stack::Stack;

impl Machine {
    // A machine at the start of an event: the figures and the clock of this state, and nothing on the stack.
    pub fn new(state: &State) -> Self
        ensures { machine_of result ≡ started (state_of state.now) }
    {
        Machine {
            stack: Stack::new(0),
            state: *state,
        }
    }

    // Leaves a block.
    pub fn leave(&mut self)
        ensures { machine_of self.new ≡ emptied (machine_of self.old) }
    {
        self.stack.clear();
    }

    // Puts the figures and the clock back into a state.
    pub fn rest(&self, state: &mut State)
        ensures { state_of state.new ≡ left (machine_of self.now) }
    {
        *state = self.state;
    }
}
