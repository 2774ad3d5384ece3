// The uneven meter, under which exactly one instruction code is not steady.
ghost use Rattle.trial.specs.Unevens.{uneven, uneven_of};
ghost use Rattle.std.specs.Prelude.{◌≡◌};

use meter::meter::{Meter, is_instruction};

#[derive(Clone, Copy)]
pub struct Uneven {
    code: u8,
}

impl Uneven {
    // The meter under which the given code is not steady, if it is an instruction's.
    pub fn new(code: u8) -> Uneven
        ensures { uneven_of result ≡ uneven code }
    {
        Uneven { code }
    }
}

impl Meter for Uneven {
    const LARGEST: u32 = 3;

    ghost meaning = { uneven_of };

    fn charge(&self, code: u8, first: i32, _second: i32) -> u32 {
        if !is_instruction(code) {
            0
        } else if code == self.code && first != 0 {
            3
        } else {
            1
        }
    }

    fn steady(&self, code: u8) -> bool {
        !is_instruction(code) || code != self.code
    }

    fn largest_charge(&self) -> u32 {
        Self::LARGEST
    }

    fn laws(&self) {}
}
