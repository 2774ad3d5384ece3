// Slips: a one-time permission to carry one figure's amount into another. A slip is a token of plain
// numbers that is neither copied nor let go: the engine takes it back, spent, or hands it back.
ghost use Rattle.std.specs.Prelude.{◌≡◌};

use refusal::engine::EngineFault;

// What stands on a slip: its holder's level, the first and the second figure, and the number of its
// opening, counted from 1.
#[derive(Clone, Copy, PartialEq, Eq, Debug)]
pub struct Numbers {
    pub holder: u16,
    pub from: u32,
    pub to: u32,
    pub number: u32,
}

pub struct Slip {
    pub(crate) numbers: Numbers,
}

// Openings are counted from 1, so a slip that an engine gave never meets this requirement, and a program that lets
// one go is refused.
impl Drop for Slip {
    fn drop(self)
        requires { self.numbers.number ≡ 0 }
    {
        let Slip { numbers: _ } = self;
    }
}

impl Slip {
    // A slip with these numbers, whoever wrote them: it is worth something only if they are those of
    // the slip that is out.
    pub fn new(numbers: Numbers) -> Self
        ensures { result.numbers ≡ numbers }
    {
        Slip { numbers }
    }

    // Ends the slip; only the engine's calls do.
    pub(crate) fn end(self) -> Numbers
        ensures { result ≡ self.numbers }
    {
        let Slip { numbers } = self;
        numbers
    }

    // What stands on it.
    pub fn numbers(&self) -> Numbers
        ensures { result ≡ self.now.numbers }
    {
        self.numbers
    }
}

// A slip that was refused comes back, with the reason.
pub struct Refused {
    pub slip: Slip,
    pub fault: EngineFault,
}

// The openings, carries and withdrawals of slips.
#[derive(Clone, Copy, PartialEq, Eq, Debug)]
pub struct Tally {
    pub openings: u32,
    pub carries: u32,
    pub withdrawals: u32,
}
