// The numbers that instructions have in a book's bytes.
ghost use Rattle.book.specs.Codes.{code_of};
ghost use Rattle.book.specs.Reads.{is_stop};
ghost use Rattle.std.specs.Prelude.{◌≡◌};

use crate::instruction::Instruction;

// The code of an instruction, 1 to 16, by which a meter is asked for its charge.
pub fn code_of(instruction: Instruction) -> u8
    ensures { result ≡ code_of instruction }
{
    match instruction {
        Instruction::Number(_) => 1,
        Instruction::Figure(_) => 2,
        Instruction::Clock => 3,
        Instruction::Operate(operation) => operation as u8,
        Instruction::Store(_) => 10,
        Instruction::If => 11,
        Instruction::Repeat(_) => 12,
        Instruction::Wait(_) => 13,
        Instruction::Else => 14,
        Instruction::End => 15,
        Instruction::Stop => 16,
    }
}

// Whether an instruction is a stop.
pub fn is_stop(instruction: Instruction) -> bool
    ensures { result ≡ is_stop instruction }
{
    matches!(instruction, Instruction::Stop)
}
