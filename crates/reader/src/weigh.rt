// The weights of events: how many instructions a run of each could come to at most.
ghost use Rattle.std.specs.Prelude.{◌≡◌, ◌+◌, ◌≤◌, [], length, nat_lt};
ghost use Rattle.book.specs.Reads.{stops_last};
ghost use Rattle.book.specs.Weighs.{capped, closing_fault, factor as factor_of, factors_after, heaviest};
ghost use Rattle.stack.specs.Stacks.{held};
ghost use Rattle.std.specs.Result.{result_err};

use book::codes::is_stop;
use book::instruction::Instruction;
use refusal::reader::ReaderFault;
use stack::Stack;

// The first weight above the limit; those above it are not told apart.
const TOO_MUCH: u64 = 100_001;

// One event's weight so far.
#[derive(Drop)]
struct Weighing {
    // the place of the event's first instruction
    start: u32,
    total: u64,
    // for each open block the product of the counts of all repeats around its inside
    factors: Stack<u64>,
}

impl Weighing {
    // An event that starts here.
    fn new(start: u32) -> Self
        ensures start { result.start ≡ start }
        ensures total { result.total ≡ 0 }
        ensures factors { held result.factors ≡ [] }
    {
        Weighing {
            start,
            total: 0,
            factors: Stack::new(1),
        }
    }

    // One instruction more.
    fn add(&mut self, instruction: Instruction)
        ensures start { self.new.start ≡ self.old.start }
        ensures total { self.new.total ≡ capped (self.old.total + factor_of (held self.old.factors)) }
        ensures factors { held self.new.factors ≡ factors_after instruction (held self.old.factors) }
    {
        let factor = self.factors.top().unwrap_or(1);
        self.total = self.total.saturating_add(factor).min(TOO_MUCH);
        match instruction {
            Instruction::If => {
                let _ = self.factors.push(factor);
            }
            Instruction::Repeat(count) => {
                let inside = factor.saturating_mul(u64::from(count.max(1))).min(TOO_MUCH);
                let _ = self.factors.push(inside);
            }
            Instruction::End => {
                let _ = self.factors.pop();
            }
            Instruction::Number(_)
            | Instruction::Figure(_)
            | Instruction::Clock
            | Instruction::Operate(_)
            | Instruction::Store(_)
            | Instruction::Wait(_)
            | Instruction::Else
            | Instruction::Stop => {}
        }
    }

    // Whether the event weighs too much so far.
    fn heavy(&self) -> bool
        ensures { result ≡ nat_lt 100000 self.now.total }
    {
        self.total >= TOO_MUCH
    }
}

// The first instruction of the first event that weighs too much.
fn first_heavy(code: &[Instruction]) -> Option<u32>
    requires { length code.now ≤ 256 }
    ensures { result ≡ heaviest 0 0 0 [] code.now }
{
    let mut event = Weighing::new(0);
    for (place, instruction) in code.iter().enumerate() {
        event.add(*instruction);
        if is_stop(*instruction) {
            if event.heavy() {
                return Some(event.start);
            }
            event = Weighing::new(place as u32 + 1);
        }
    }
    None
}

// Whether the last instruction, if there is one, is a stop.
fn stops_last(code: &[Instruction]) -> bool
    ensures { result ≡ stops_last code.now }
{
    code.last().is_none_or(|instruction| is_stop(*instruction))
}

// Checks the end of code of which each instruction is right: a stop stands last, and no event is heavy.
pub(crate) fn check_end(code: &[Instruction]) -> Result<(), ReaderFault>
    requires { length code.now ≤ 256 }
    ensures { result_err result ≡ closing_fault code.now }
{
    if !stops_last(code) {
        return Err(ReaderFault::Nesting(code.len() as u32));
    }
    first_heavy(code).map_or(Ok(()), |start| Err(ReaderFault::Weight(start)))
}
