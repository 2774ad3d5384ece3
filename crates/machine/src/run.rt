// Running: one loop over the instructions, forward jumps for ifs, and a call for each turn of a repeat.
ghost use Rattle.std.specs.Prelude.{◌≡◌, ◌<◌, ◌≤◌, length, drop};
ghost use Rattle.machine.specs.Jumps.{jump_from};
ghost use Rattle.reader.specs.Books.{said};
ghost use Rattle.book.specs.Trees.{here, parse};
ghost use Rattle.book.specs.declared.instruction.Instruction.TheVariants.{Repeat};
ghost use Rattle.steps.specs.Machines.{perform};
ghost use Rattle.steps.specs.Runs.{exec, times};
ghost use Rattle.steps.specs.Seen.{machine_of};

use crate::program::Program;
use book::instruction::Instruction;
use meter::meter::Meter;
use steps::machine::Machine;

impl Program {
    // The place where a run goes on that leaves out what follows this one.
    fn jump(&self, place: usize) -> usize
        requires { place < length (said self.now.book).code }
        ensures to { result ≡ jump_from (said self.now.book).code place }
        ensures within { result ≤ length (said self.now.book).code }
    {
        usize::from(self.jumps[place])
    }

    // Runs the stretch that starts at a place, up to what closes it.
    #[cycle(run_from_take_turns)]
    pub(crate) fn run_from<M: Meter>(&self, meter: &M, from: usize, machine: &mut Machine)
        requires { from ≤ length (said self.now.book).code }
        ensures { machine_of machine.new ≡ exec (M.Meter.meaning meter.now) (here (parse (drop from (said self.now.book).code))) (machine_of machine.old) }
    {
        let code = self.book.code();
        let mut place = from;
        let mut ifs = 0usize;
        // A run jumps, so its place moves by hand.
        while place < code.len() {
            let instruction = code[place];
            match instruction {
                Instruction::Number(number) => {
                    machine.number(meter, number);
                    place += 1;
                }
                Instruction::Figure(figure) => {
                    machine.figure(meter, figure);
                    place += 1;
                }
                Instruction::Clock => {
                    machine.read_clock(meter);
                    place += 1;
                }
                Instruction::Operate(operation) => {
                    machine.operate(meter, operation);
                    place += 1;
                }
                Instruction::Store(figure) => {
                    machine.store(meter, figure);
                    place += 1;
                }
                Instruction::Wait(ticks) => {
                    machine.wait(ticks);
                    place += 1;
                }
                Instruction::If => {
                    ifs += 1;
                    if machine.test(meter) {
                        place += 1;
                    } else {
                        place = self.jump(place);
                    }
                }
                Instruction::Repeat(count) => {
                    self.take_turns(meter, count, place + 1, machine);
                    machine.leave();
                    place = self.jump(place) + 1;
                }
                Instruction::Else => place = self.jump(place),
                Instruction::End => {
                    if ifs == 0 {
                        return;
                    }
                    ifs -= 1;
                    machine.leave();
                    place += 1;
                }
                Instruction::Stop => return,
            }
        }
    }

    // Runs the inside of a repeat as often as it says.
    #[cycle(run_from_take_turns)]
    fn take_turns<M: Meter>(&self, meter: &M, count: u16, from: usize, machine: &mut Machine)
        requires { from ≤ length (said self.now.book).code }
        ensures { machine_of machine.new ≡ times count (λ t. exec (M.Meter.meaning meter.now) (here (parse (drop from (said self.now.book).code))) (perform (M.Meter.meaning meter.now) (Repeat count) t)) (machine_of machine.old) }
    {
        for _ in 0..count {
            machine.turn(meter, count);
            self.run_from(meter, from, machine);
        }
    }
}
