// Reading and setting the amounts of a state, and its clock.
ghost use Rattle.steps.specs.Seen.{state_of};
ghost use Rattle.std.specs.Prelude.{◌≡◌, [], pos, slice_index_or, slice_set};

use crate::state::State;

impl State {
    // The state where no book is loaded: no figures, and the clock at 0.
    pub fn empty() -> Self
        ensures { state_of result ≡ record { figures = []; clock = 0 } }
    {
        State {
            amounts: [0; 32],
            count: 0,
            clock: 0,
        }
    }

    // The figures' amounts.
    fn figures(&self) -> &[i32]
        ensures { result.now ≡ (state_of self.now).figures }
    {
        &self.amounts[..self.count]
    }

    // The amount of a figure; 0 where there is no such figure.
    pub fn amount(&self, figure: usize) -> i32
        ensures { result ≡ slice_index_or (state_of self.now).figures figure (pos 0) }
    {
        self.figures().get(figure).copied().unwrap_or(0)
    }

    // Sets a figure's amount; nothing where there is no such figure.
    pub fn set_amount(&mut self, figure: usize, amount: i32)
        ensures amounts { (state_of self.new).figures ≡ slice_set (state_of self.old).figures figure amount }
        ensures clock { self.new.clock ≡ self.old.clock }
    {
        // By an index: for a `get_mut` of the part in use the check writes no proof.
        if figure < self.count {
            self.amounts[figure] = amount;
        }
    }

    // The ticks that have passed since the book was loaded.
    pub fn clock(&self) -> u64
        ensures { result ≡ (state_of self.now).clock }
    {
        self.clock
    }
}
