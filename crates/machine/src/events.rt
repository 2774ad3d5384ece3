// The public call that runs an event.
ghost use Rattle.reader.specs.Books.{said};
ghost use Rattle.machine.specs.Bounds.{TickBound};
ghost use Rattle.machine.specs.Privacy.{RunPrivacy};
ghost use Rattle.machine.specs.Ran.{Ran};
ghost use Rattle.steps.specs.Seen.{state_of};
ghost use Rattle.machine.specs.Strictness.{RunLaw};
ghost use Rattle.std.specs.Prelude.{◌≡◌};

use crate::fault::NoSuchEvent;
use crate::program::Program;
use meter::meter::Meter;
use steps::machine::Machine;
use steps::state::State;

impl Program {
    // Runs an event. Where there is no such event nothing changes.
    #[tactic(auto, using(crate::proofs::RunLaw::run_law, crate::proofs::TickBounds::tick_bound, crate::proofs::Private::run_private))]
    pub fn run<M: Meter>(&self, meter: &M, event: u32, state: &mut State) -> Result<(), NoSuchEvent>
        ensures ran { Ran (M.Meter.meaning meter.now) (said self.now.book) event (state_of state.old) result (state_of state.new) }
        ensures law { RunLaw (M.Meter.meaning meter.now) }
        ensures bound { TickBound (M.Meter.meaning meter.now) }
        ensures privacy { RunPrivacy (M.Meter.meaning meter.now) }
    {
        meter.laws();
        let Some(start) = self.start_of(event) else {
            return Err(NoSuchEvent { event });
        };
        let mut machine = Machine::new(state);
        self.run_from(meter, start, &mut machine);
        machine.rest(state);
        Ok(())
    }
}
