// What the reader keeps while it goes through the instructions: how high the stack is, and which
// blocks are open.
ghost use Rattle.book.specs.Reads.{blocks_after, fits_height, fits_nesting, height_after, step_fault};
ghost use Rattle.stack.specs.Stacks.{held};
ghost use Rattle.std.specs.Prelude.{◌≡◌, ◌≤◌, true, [], length};
ghost use Rattle.std.specs.Result.{result_err};

use book::block::Block;
use book::instruction::Instruction;
use refusal::reader::ReaderFault;
use stack::Stack;

#[derive(Drop)]
pub(crate) struct Scan {
    pub(crate) height: usize,
    pub(crate) blocks: Stack<Block>,
}

// Whether an instruction may stand where the stack is this high.
fn fits_height(instruction: Instruction, height: usize) -> bool
    ensures { result ≡ fits_height instruction height }
{
    match instruction {
        Instruction::Number(_) | Instruction::Figure(_) | Instruction::Clock => height < 8,
        Instruction::Operate(_) => height > 1,
        Instruction::Store(_) | Instruction::If => height == 1,
        Instruction::Repeat(_)
        | Instruction::Wait(_)
        | Instruction::Else
        | Instruction::End
        | Instruction::Stop => height == 0,
    }
}

impl Scan {
    // Nothing on the stack and no block open.
    pub(crate) fn new() -> Self
        ensures { (result.height ≡ 0) × (held result.blocks ≡ []) }
    {
        Scan {
            height: 0,
            blocks: Stack::new(Block::Turns),
        }
    }

    // Whether an instruction may stand among the blocks that are open.
    fn fits_nesting(&self, instruction: Instruction) -> bool
        ensures { result ≡ fits_nesting instruction (held self.now.blocks) }
    {
        match instruction {
            Instruction::Number(_)
            | Instruction::Figure(_)
            | Instruction::Clock
            | Instruction::Operate(_)
            | Instruction::Store(_)
            | Instruction::Wait(_) => true,
            Instruction::If | Instruction::Repeat(_) => self.blocks.height() < 8,
            Instruction::Else => matches!(self.blocks.top(), Some(Block::FirstPart)),
            Instruction::End => self.blocks.height() > 0,
            Instruction::Stop => self.blocks.height() == 0,
        }
    }

    // Refuses an instruction that may not stand at this place.
    pub(crate) fn check(&self, instruction: Instruction, place: u32) -> Result<(), ReaderFault>
        ensures { result_err result ≡ step_fault place self.now.height (held self.now.blocks) instruction }
    {
        if !fits_height(instruction, self.height) {
            return Err(ReaderFault::Height(place));
        }
        if !self.fits_nesting(instruction) {
            return Err(ReaderFault::Nesting(place));
        }
        Ok(())
    }

    // Goes past an instruction that has no fault.
    pub(crate) fn pass(&mut self, instruction: Instruction)
        requires { (fits_height instruction self.old.height ≡ true) × (fits_nesting instruction (held self.old.blocks) ≡ true) }
        ensures height { self.new.height ≡ height_after instruction self.old.height }
        ensures blocks { held self.new.blocks ≡ blocks_after instruction (held self.old.blocks) }
    {
        match instruction {
            Instruction::Number(_) | Instruction::Figure(_) | Instruction::Clock => self.height +=
                1,
            Instruction::Operate(_) => self.height -= 1,
            Instruction::Store(_) | Instruction::Wait(_) | Instruction::Stop => self.height = 0,
            Instruction::If => {
                self.height = 0;
                let _ = self.blocks.push(Block::FirstPart);
            }
            Instruction::Repeat(_) => {
                self.height = 0;
                let _ = self.blocks.push(Block::Turns);
            }
            Instruction::Else => {
                self.height = 0;
                let _ = self.blocks.pop();
                let _ = self.blocks.push(Block::SecondPart);
            }
            Instruction::End => {
                self.height = 0;
                let _ = self.blocks.pop();
            }
        }
    }
}
