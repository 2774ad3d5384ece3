// Operations on amounts, which stay at the nearer end of the 32-bit range.
ghost use Rattle.steps.specs.Amounts.{divided, operate as operate_by};
ghost use Rattle.std.specs.Prelude.{◌≡◌};

use book::instruction::Operation;

// A quotient without its fraction; 0 for divisor 0.
fn divide(first: i32, second: i32) -> i32
    ensures { result ≡ divided first second }
{
    if second == 0 {
        0
    } else {
        first.saturating_div(second)
    }
}

pub(crate) fn operate(operation: Operation, first: i32, second: i32) -> i32
    ensures { result ≡ operate_by operation first second }
{
    match operation {
        Operation::Add => first.saturating_add(second),
        Operation::Subtract => first.saturating_sub(second),
        Operation::Multiply => first.saturating_mul(second),
        Operation::Divide => divide(first, second),
        Operation::Less => i32::from(first < second),
        Operation::Equal => i32::from(first == second),
    }
}
