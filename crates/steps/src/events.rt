// The state that the events of a loaded book begin from.
ghost use Rattle.reader.specs.Books.{said};
ghost use Rattle.steps.specs.Runs.{start_state};
ghost use Rattle.steps.specs.Seen.{state_of};
ghost use Rattle.std.specs.Prelude.{◌≡◌};

use crate::state::State;
use reader::rulebook::Book;

impl State {
    // The figures at their start amounts and the clock at 0.
    pub fn new(book: &Book) -> Self
        ensures { state_of result ≡ start_state (said book.now) }
    {
        let starts = book.starts();
        let count = starts.len();
        let mut amounts = [0; 32];
        amounts[..count].copy_from_slice(starts);
        State {
            amounts,
            count,
            clock: 0,
        }
    }
}
