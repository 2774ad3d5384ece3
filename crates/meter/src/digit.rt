// The digit meter: multiplying and dividing take longer for some operands than for others.
ghost use Rattle.meter.specs.Digits.{digit};

use crate::meter::{Meter, is_instruction};

// The codes whose ticks depend on the operands.
const MULTIPLY: u8 = 6;

const DIVIDE: u8 = 7;

#[derive(Clone, Copy)]
pub struct Digit;

impl Meter for Digit {
    const LARGEST: u32 = 33;

    ghost meaning = { λ _. digit };

    fn charge(&self, code: u8, first: i32, second: i32) -> u32 {
        match code {
            MULTIPLY => 1 + second.count_ones(),
            DIVIDE => 1 + (32 - first.leading_zeros()),
            _ => u32::from(is_instruction(code)),
        }
    }

    fn steady(&self, code: u8) -> bool {
        !matches!(code, MULTIPLY | DIVIDE)
    }

    fn largest_charge(&self) -> u32 {
        Self::LARGEST
    }

    fn laws(&self) {}
}
