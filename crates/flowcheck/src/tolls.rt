// Tolls: the ticks of a stretch of code at operands 0, worked out without running it.
ghost use Rattle.std.specs.Prelude.{◌≡◌, ◌+◌, ◌*◌, []};
ghost use Rattle.flowcheck.specs.Tolls.{added as added_by, closes_all, fit, tolled, turns_after, turns_of};
ghost use Rattle.stack.specs.Stacks.{held};

use book::codes::code_of;
use book::instruction::Instruction;
use meter::meter::Meter;
use stack::Stack;

// What an instruction adds to a toll.
fn added<M: Meter>(meter: &M, instruction: Instruction) -> u64
    ensures { result ≡ added_by (M.meaning meter.now) instruction }
{
    let charge = u64::from(meter.charge(code_of(instruction), 0, 0));
    match instruction {
        Instruction::Repeat(count) => u64::from(count) * charge,
        Instruction::Wait(ticks) => u64::from(ticks),
        Instruction::Else | Instruction::End | Instruction::Stop => 0,
        _ => charge,
    }
}

// The toll of what is left of a stretch. It goes through blocks as the reader's weights do, but nothing counts behind an
// else, a repeat of 0 counts nothing, and there is no limit, so that one sum for both would ask for all three.
#[derive(Drop)]
struct Toll {
    ticks: u64,
    // for each block that opened on the way how often its inside counts
    turns: Stack<u64>,
}

impl Toll {
    fn new() -> Self
        ensures { (result.ticks ≡ 0) × (held result.turns ≡ []) }
    {
        Toll {
            ticks: 0,
            turns: Stack::new(1),
        }
    }

    // Whether an instruction closes the stretch.
    fn closes(&self, instruction: Instruction) -> bool
        ensures { result ≡ closes_all instruction (held self.now.turns) }
    {
        match instruction {
            Instruction::Stop => true,
            Instruction::Else | Instruction::End => self.turns.height() == 0,
            _ => false,
        }
    }

    // One instruction more, which takes these ticks.
    fn add(&mut self, instruction: Instruction, ticks: u64)
        ensures ticks { self.new.ticks ≡ fit (self.old.ticks + fit (turns_of (held self.old.turns) * ticks)) }
        ensures turns { held self.new.turns ≡ turns_after instruction (held self.old.turns) }
    {
        let turns = self.turns.top().unwrap_or(1);
        self.ticks = self.ticks.saturating_add(turns.saturating_mul(ticks));
        match instruction {
            Instruction::If => {
                let _ = self.turns.push(turns);
            }
            Instruction::Repeat(count) => {
                let _ = self.turns.push(turns.saturating_mul(u64::from(count)));
            }
            Instruction::Else => {
                let _ = self.turns.pop();
                let _ = self.turns.push(0);
            }
            Instruction::End => {
                let _ = self.turns.pop();
            }
            _ => {}
        }
    }
}

// The toll of the stretch that these instructions begin with.
pub(crate) fn toll_of<M: Meter>(meter: &M, code: &[Instruction]) -> u64
    ensures { result ≡ tolled (M.meaning meter.now) 0 [] code.now }
{
    let mut toll = Toll::new();
    for instruction in code {
        if toll.closes(*instruction) {
            return toll.ticks;
        }
        toll.add(*instruction, added(meter, *instruction));
    }
    toll.ticks
}
