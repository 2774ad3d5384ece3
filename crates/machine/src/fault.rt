// Why a run is refused.
ghost use Rattle.refusal.specs.declared.engine.EngineFault.TheVariants.{NoSuch};
ghost use Rattle.std.specs.Prelude.{◌≡◌};

use refusal::engine::EngineFault;

// The book has no event of this number.
#[derive(Clone, Copy, PartialEq, Eq, Debug)]
pub struct NoSuchEvent {
    pub event: u32,
}

impl From<NoSuchEvent> for EngineFault {
    ghost from_gives = { λ fault engine_fault. engine_fault ≡ NoSuch fault.event };

    fn from(fault: NoSuchEvent) -> EngineFault {
        EngineFault::NoSuch(fault.event)
    }
}
