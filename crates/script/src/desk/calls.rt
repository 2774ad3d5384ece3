// What is done at a desk. Each call is one step of the engine's model.
ghost use Rattle.script.specs.Chosen.{meter_of, scale_of};
ghost use Rattle.script.specs.Desks.{Called, opened_answer, settled};
ghost use Rattle.script.specs.Held.{left_held, paper_held};
ghost use Rattle.script.specs.Replies.{told};
ghost use Rattle.engine.specs.Models.{ask_slip, carry as carry_call, fresh, open_slip, withdraw as withdraw_call};
ghost use Rattle.engine.specs.Seen.{engine_of, IsStep, paper_of, plain_answer};
ghost use Rattle.refusal.specs.declared.engine.EngineFault.TheVariants.{NotTheSlip};
ghost use Rattle.std.specs.Prelude.{◌≡◌, None, Some};

use crate::call::Call;
use crate::chosen::{ChosenMeter, ChosenScale};
use crate::desk::Desk;
use crate::reply::Reply;
use engine::engine::Engine;
use engine::slip::{Numbers, Refused, Slip};
use refusal::engine::EngineFault;

// A slip with these numbers: the one that is held, or one that is written anew.
fn present(held: &mut Option<Slip>, numbers: Numbers) -> Slip
    ensures same { result.numbers ≡ numbers }
    ensures left { paper_held held.new ≡ left_held (paper_held held.old) (paper_of numbers) }
{
    held.take_if(|slip| slip.numbers() == numbers)
        .unwrap_or_else(|| Slip::new(numbers))
}

// Destroys a refused slip, which is not out, and answers why it was refused.
fn discard(engine: &Engine<ChosenScale, ChosenMeter>, refused: Refused) -> EngineFault
    requires { ask_slip (engine_of engine.now).shared.out (paper_of refused.slip.numbers) ≡ Some NotTheSlip }
    ensures { result ≡ refused.fault }
{
    let Refused { slip, fault } = refused;
    engine.void(slip).unwrap();
    fault
}

impl Desk {
    // A desk with a fresh engine under this scale and this meter.
    pub(crate) fn new(scale: ChosenScale, meter: ChosenMeter) -> Desk
        ensures made { engine_of result.engine ≡ fresh }
        ensures parts { (result.engine.scale ≡ scale) × (result.engine.meter ≡ meter) }
    {
        Desk {
            engine: Engine::new(scale, meter),
            held: None,
        }
    }

    // Opens a slip and holds it.
    fn open_slip(&mut self, holder: u16, from: u32, to: u32) -> Result<Numbers, EngineFault>
        ensures { IsStep scale_of meter_of self.old.engine self.new.engine (open_slip holder from to) (opened_answer result) }
    {
        let slip = self.engine.open_slip(holder, from, to)?;
        let numbers = slip.numbers();
        self.held = Some(slip);
        Ok(numbers)
    }

    // Carries the slip with these numbers. This and `withdraw` differ in one method of the engine's: a function over that
    // method would have to require its contract, which is longer than these bodies.
    fn carry(&mut self, numbers: Numbers) -> Result<(), EngineFault>
        ensures { IsStep scale_of meter_of self.old.engine self.new.engine (carry_call (paper_of numbers)) (plain_answer result) }
    {
        let slip = present(&mut self.held, numbers);
        self.engine
            .carry(slip)
            .map_err(|refused| discard(&self.engine, refused))
    }

    // Withdraws the slip with these numbers.
    fn withdraw(&mut self, numbers: Numbers) -> Result<(), EngineFault>
        ensures { IsStep scale_of meter_of self.old.engine self.new.engine (withdraw_call (paper_of numbers)) (plain_answer result) }
    {
        let slip = present(&mut self.held, numbers);
        self.engine
            .withdraw(slip)
            .map_err(|refused| discard(&self.engine, refused))
    }

    // Makes a call on the engine.
    fn call(&mut self, call: &Call) -> Result<Reply, EngineFault>
        ensures { Called self.old self.new call.now (told result) }
    {
        match call {
            Call::Load(bytes) => self.engine.load(bytes.as_slice()).map(Reply::Loaded),
            Call::Put { figure, amount } => self.engine.put(*figure, *amount).map(|()| Reply::Done),
            Call::Run { event } => self.engine.run(*event).map(|()| Reply::Done),
            Call::Show { level, figure } => self.engine.show(*level, *figure).map(Reply::Amount),
            Call::Clock { level } => self.engine.clock(*level).map(Reply::Clock),
            Call::Open { holder, from, to } => self
                .open_slip(*holder, *from, *to)
                .map(Reply::Opened),
            Call::Carry(numbers) => self.carry(*numbers).map(|()| Reply::Done),
            Call::Withdraw(numbers) => self.withdraw(*numbers).map(|()| Reply::Done),
            Call::Tally => Ok(Reply::Counts(self.engine.tally())),
        }
    }

    // Applies a call, and replies to it.
    pub(crate) fn apply(&mut self, call: &Call) -> Reply
        ensures { Called self.old self.new call.now result }
    {
        self.call(call).unwrap_or_else(Reply::from)
    }

    // Clears the desk: a slip that is still out is withdrawn, and the engine comes back.
    pub(crate) fn close(self) -> Engine<ChosenScale, ChosenMeter>
        ensures { engine_of result ≡ settled (scale_of self.engine.scale) (meter_of self.engine.meter) (engine_of self.engine) }
    {
        let Desk { mut engine, held } = self;
        if let Some(slip) = held {
            engine.withdraw(slip).unwrap();
        }
        engine
    }
}
