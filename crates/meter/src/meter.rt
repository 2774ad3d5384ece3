// The trait of meters. A meter is a cost model: how many ticks an instruction takes, by its code and its operands.
ghost use Rattle.meter.specs.Meters.{MeterModel, Lawful, instruction};
ghost use Rattle.std.specs.Prelude.{◌≡◌};

pub trait Meter {
    // The largest charge that any meter of this type can make, as its writer states it. `largest_charge` answers one meter's
    // own, with a contract; a clause that ties the two would ask more of whoever writes a meter, so both stay.
    const LARGEST: u32;

    // What the meter answers to every question.
    ghost meaning: { Self → MeterModel };

    // The ticks that an instruction with these operands takes. The code is a number, since a meter answers for the codes
    // of no instruction too: a narrower type would ask more of callers.
    fn charge(&self, code: u8, first: i32, second: i32) -> u32
        ensures { result ≡ (meaning self.now).charge code first second };

    // Whether the charge of this code is the same for all operands.
    fn steady(&self, code: u8) -> bool
        ensures { result ≡ (meaning self.now).steady code };

    // The most ticks that one instruction takes.
    fn largest_charge(&self) -> u32
        ensures { result ≡ (meaning self.now).largest };

    // Changes nothing: a call brings the laws of this meter into its caller's proof.
    fn laws(&self)
        ensures { Lawful (meaning self.now) };
}

// Whether a code is an instruction's; any other takes no ticks.
pub fn is_instruction(code: u8) -> bool
    ensures { result ≡ instruction code }
{
    matches!(code, 1..=12)
}
