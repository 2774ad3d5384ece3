// The instructions of a rule book, with their arguments.

// The six operations on the top two amounts, with their codes in a book's bytes.
#[derive(Clone, Copy, PartialEq, Eq, Debug)]
pub enum Operation {
    Add = 4,
    Subtract = 5,
    Multiply = 6,
    Divide = 7,
    Less = 8,
    Equal = 9,
}

// One instruction. A figure is a variable of the book, named by its number.
#[derive(Clone, Copy, PartialEq, Eq, Debug)]
pub enum Instruction {
    Stop,
    Number(i32),
    Figure(u8),
    Clock,
    Operate(Operation),
    Store(u8),
    If,
    Repeat(u16),
    Wait(u16),
    Else,
    End,
}
