// The engine's own record; its calls are beside it.
ghost use Rattle.std.specs.Prelude.{◌≡◌, ◌+◌, ◌≤◌};
ghost use Rattle.engine.specs.Outs.{still_out};

use crate::slip::{Numbers, Tally};
use machine::program::Program;
use steps::state::State;

mod calls;

#[derive(Drop)]
pub struct Engine<S, M> {
    scale: S,
    meter: M,
    program: Option<Program>,
    state: State,
    // what stands on the slip that is out
    out: Option<Numbers>,
    tally: Tally,
    ghost few: { tally.openings ≤ 65535 },
    // Every opening is carried, withdrawn or still out.
    ghost sums: { tally.openings ≡ tally.carries + tally.withdrawals + still_out out },
}
