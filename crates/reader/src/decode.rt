// One instruction from its code and its argument.
ghost use Rattle.std.specs.Prelude.{◌≡◌, ◌≤◌};
ghost use Rattle.book.specs.Codes.{alone as alone_of, decoded, natural_below};

use book::instruction::{Instruction, Operation};

// The argument as a number from 0 to below `limit`, if it is one.
fn natural(limit: u16, argument: i32) -> Option<u16>
    ensures { result ≡ natural_below limit argument }
{
    u16::try_from(argument)
        .ok()
        .filter(|number| *number < limit)
}

// The number of one of the book's figures.
fn figure(figures: usize, argument: i32) -> Option<u8>
    requires { figures ≤ 32 }
    ensures { result ≡ natural_below figures argument }
{
    u8::try_from(natural(figures as u16, argument)?).ok()
}

// An instruction that has 0 for its argument.
fn alone(instruction: Instruction, argument: i32) -> Option<Instruction>
    ensures { result ≡ alone_of instruction argument }
{
    (argument == 0).then_some(instruction)
}

// The instruction that a code and an argument are, if they are one.
// The operations stand among the codes, as rows like the others: a `TryFrom` of their own would be these six rows
// again, with an error that is dropped here.
pub(crate) fn decode(figures: usize, code: u8, argument: i32) -> Option<Instruction>
    requires { figures ≤ 32 }
    ensures { result ≡ decoded figures code argument }
{
    match code {
        1 => Some(Instruction::Number(argument)),
        2 => Some(Instruction::Figure(figure(figures, argument)?)),
        3 => alone(Instruction::Clock, argument),
        4 => alone(Instruction::Operate(Operation::Add), argument),
        5 => alone(Instruction::Operate(Operation::Subtract), argument),
        6 => alone(Instruction::Operate(Operation::Multiply), argument),
        7 => alone(Instruction::Operate(Operation::Divide), argument),
        8 => alone(Instruction::Operate(Operation::Less), argument),
        9 => alone(Instruction::Operate(Operation::Equal), argument),
        10 => Some(Instruction::Store(figure(figures, argument)?)),
        11 => alone(Instruction::If, argument),
        12 => Some(Instruction::Repeat(natural(1001, argument)?)),
        13 => Some(Instruction::Wait(natural(1001, argument)?)),
        14 => alone(Instruction::Else, argument),
        15 => alone(Instruction::End, argument),
        16 => alone(Instruction::Stop, argument),
        _ => None,
    }
}
