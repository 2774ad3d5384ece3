// One method for each kind of instruction: its effect, and after it the clock moves.
ghost use Rattle.book.specs.Codes.{code_of};
ghost use Rattle.book.specs.declared.instruction.Instruction.TheVariants.{Clock, Figure, If, Number, Operate, Repeat, Store, Wait};
ghost use Rattle.steps.specs.Amounts.{is_zero};
ghost use Rattle.steps.specs.Machines.{amount_at, later, perform};
ghost use Rattle.steps.specs.Seen.{machine_of};
ghost use Rattle.meter.specs.Meters.{MeterModel};
ghost use Rattle.stack.specs.Stacks.{held};
ghost use Rattle.std.specs.Prelude.{◌≡◌, not};

use crate::amounts::operate;
use crate::machine::Machine;
use crate::state::State;
use book::codes::code_of;
use book::instruction::{Instruction, Operation};
use meter::meter::Meter;

// The clock stops here.
const LATEST: u64 = 1_000_000_000_000;

impl State {
    // Moves the clock.
    pub(crate) fn tick(&mut self, ticks: u32)
        ensures { self.new ≡ record self.old { clock = later self.old.clock ticks } }
    {
        self.clock = self.clock.saturating_add(u64::from(ticks)).min(LATEST);
    }

    // Moves the clock by what the meter charges for an instruction with these operands.
    fn charge<M: Meter>(&mut self, meter: &M, instruction: Instruction, first: i32, second: i32)
        ensures { self.new ≡ record self.old { clock = later self.old.clock ((M.Meter.meaning meter.now).charge (code_of instruction) first second) } }
    {
        self.tick(meter.charge(code_of(instruction), first, second));
    }
}

impl Machine {
    // Pushes a number.
    pub fn number<M: Meter>(&mut self, meter: &M, number: i32)
        ensures { machine_of self.new ≡ perform (M.Meter.meaning meter.now) (Number number) (machine_of self.old) }
    {
        let _ = self.stack.push(number);
        self.state.charge(meter, Instruction::Number(number), 0, 0);
    }

    // Pushes a figure's amount.
    pub fn figure<M: Meter>(&mut self, meter: &M, figure: u8)
        ensures { machine_of self.new ≡ perform (M.Meter.meaning meter.now) (Figure figure) (machine_of self.old) }
    {
        let amount = self.state.amount(usize::from(figure));
        let _ = self.stack.push(amount);
        self.state.charge(meter, Instruction::Figure(figure), 0, 0);
    }

    // Pushes a reading of the clock.
    pub fn read_clock<M: Meter>(&mut self, meter: &M)
        ensures { machine_of self.new ≡ perform (M.Meter.meaning meter.now) Clock (machine_of self.old) }
    {
        let reading = i32::try_from(self.state.clock).unwrap_or(i32::MAX);
        let _ = self.stack.push(reading);
        self.state.charge(meter, Instruction::Clock, 0, 0);
    }

    // Replaces the top two amounts by the result of an operation on them.
    pub fn operate<M: Meter>(&mut self, meter: &M, operation: Operation)
        ensures { machine_of self.new ≡ perform (M.Meter.meaning meter.now) (Operate operation) (machine_of self.old) }
    {
        let second = self.stack.pop().unwrap_or(0);
        let first = self.stack.pop().unwrap_or(0);
        let _ = self.stack.push(operate(operation, first, second));
        self.state
            .charge(meter, Instruction::Operate(operation), first, second);
    }

    // Sets a figure to the amount on top.
    pub fn store<M: Meter>(&mut self, meter: &M, figure: u8)
        ensures { machine_of self.new ≡ perform (M.Meter.meaning meter.now) (Store figure) (machine_of self.old) }
    {
        let amount = self.stack.top().unwrap_or(0);
        self.stack.clear();
        self.state.set_amount(usize::from(figure), amount);
        self.state
            .charge(meter, Instruction::Store(figure), amount, 0);
    }

    // Lets ticks pass.
    pub fn wait(&mut self, ticks: u16)
        ensures { (m : MeterModel) → machine_of self.new ≡ perform m (Wait ticks) (machine_of self.old) }
    {
        self.stack.clear();
        self.state.tick(u32::from(ticks));
    }

    // The test of an if: whether its first part runs.
    pub fn test<M: Meter>(&mut self, meter: &M) -> bool
        ensures taken { result ≡ not (is_zero (amount_at (held self.old.stack) 0)) }
        ensures after { machine_of self.new ≡ perform (M.Meter.meaning meter.now) If (machine_of self.old) }
    {
        let amount = self.stack.top().unwrap_or(0);
        self.stack.clear();
        self.state.charge(meter, Instruction::If, amount, 0);
        amount != 0
    }

    // The charge before a turn of a repeat.
    pub fn turn<M: Meter>(&mut self, meter: &M, count: u16)
        ensures { machine_of self.new ≡ perform (M.Meter.meaning meter.now) (Repeat count) (machine_of self.old) }
    {
        self.stack.clear();
        self.state.charge(meter, Instruction::Repeat(count), 0, 0);
    }
}
