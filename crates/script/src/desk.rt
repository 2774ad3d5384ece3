// An engine on its desk, with the slip that is out; what is done there is beside it.
ghost use Rattle.script.specs.Held.{agrees, paper_held};
ghost use Rattle.engine.specs.Seen.{engine_of};
ghost use Rattle.std.specs.Prelude.{◌≡◌, true};

use crate::chosen::{ChosenMeter, ChosenScale};
use engine::engine::Engine;
use engine::slip::Slip;

mod calls;

pub(crate) struct Desk {
    engine: Engine<ChosenScale, ChosenMeter>,
    held: Option<Slip>,
    // What is held is the slip that is out, and nothing if none is.
    ghost tied: { agrees (engine_of engine).shared.out (paper_held held) ≡ true },
}
