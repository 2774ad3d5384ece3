// The console: the scale and the meter that the script chose, and the desk with the engine under them; what it does is
// beside it.
ghost use Rattle.std.specs.Prelude.{◌≡◌};

use crate::chosen::{ChosenMeter, ChosenScale};
use crate::desk::Desk;

mod answers;

pub struct Console {
    scale: ChosenScale,
    meter: ChosenMeter,
    desk: Desk,
    // The engine on the desk works under them.
    ghost under: { (desk.engine.scale ≡ scale) × (desk.engine.meter ≡ meter) },
}
