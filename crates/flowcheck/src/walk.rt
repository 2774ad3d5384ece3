// What the check keeps while it goes through the instructions: the contexts of the open blocks and
// the levels of the amounts on the stack.
ghost use Rattle.reader.specs.Books.{said};
ghost use Rattle.flowcheck.specs.Settings.{setting_of};
ghost use Rattle.flowcheck.specs.Walks.{breaks_charge, breaks_direct, breaks_implicit, broken, contexts_after, fault_at, levels_after, or_else, stake as stake_of};
ghost use Rattle.refusal.specs.declared.check.CheckFault.TheVariants.{Direct, Implicit};
ghost use Rattle.stack.specs.Stacks.{held};
ghost use Rattle.std.specs.Prelude.{◌≡◌, ◌+◌, [], drop, slice_get};
ghost use Rattle.std.specs.Result.{result_err};

use crate::grounds::Grounds;
use book::codes::code_of;
use book::instruction::Instruction;
use meter::meter::Meter;
use refusal::check::CheckFault;
use scale::scale::Scale;
use stack::Stack;

// The top of each stack is the innermost block's context and the last amount's level.
// The grounds are an argument of each question and no part of this: held here, `pass` would have to say that they stay.
#[derive(Drop)]
pub(crate) struct Walk {
    contexts: Stack<u16>,
    levels: Stack<u16>,
}

impl Walk {
    // At an event's start: no block is open and nothing is on the stack.
    pub(crate) fn new() -> Self
        ensures { (held result.contexts ≡ []) × (held result.levels ≡ []) }
    {
        Walk {
            contexts: Stack::new(0),
            levels: Stack::new(0),
        }
    }

    // The context joined with the levels of the amounts that an instruction takes off the stack.
    fn stake<S: Scale, M: Meter>(
        &self,
        grounds: &Grounds<'_, S, M>,
        instruction: Instruction,
    ) -> u16
        ensures { result ≡ stake_of (setting_of S.meaning M.meaning grounds.now) (held self.now.contexts) (held self.now.levels) instruction }
    {
        let scale = grounds.scale;
        let context = grounds.top(&self.contexts);
        match instruction {
            Instruction::Operate(_) => {
                let second = self.levels.second().unwrap_or_else(|| scale.floor());
                let top = grounds.top(&self.levels);
                scale.join(scale.join(context, second), top)
            }
            Instruction::Store(_) | Instruction::If => {
                let top = grounds.top(&self.levels);
                scale.join(context, top)
            }
            _ => context,
        }
    }

    // Whether the charge of an instruction tells the clock what it may not show.
    fn breaks_charge<S: Scale, M: Meter>(
        &self,
        grounds: &Grounds<'_, S, M>,
        instruction: Instruction,
    ) -> bool
        ensures { result ≡ breaks_charge (setting_of S.meaning M.meaning grounds.now) (held self.now.contexts) (held self.now.levels) instruction }
    {
        !grounds.meter.steady(code_of(instruction))
            && !grounds.on_clock(self.stake(grounds, instruction))
    }

    // A store keeps its rules: the figure is at or above the amount that it puts there, and the context.
    fn check_store<S: Scale, M: Meter>(
        &self,
        grounds: &Grounds<'_, S, M>,
        figure: u8,
        place: u32,
    ) -> Result<(), CheckFault>
        ensures { let g = setting_of S.meaning M.meaning grounds.now in result_err result ≡ or_else (broken (breaks_direct g (held self.now.levels) figure) (Direct place)) (broken (breaks_implicit g (held self.now.contexts) figure) (Implicit place)) }
    {
        let scale = grounds.scale;
        let level = grounds.figure_level(figure);
        if !scale.at_or_below(grounds.top(&self.levels), level) {
            return Err(CheckFault::Direct(place));
        }
        if !scale.at_or_below(grounds.top(&self.contexts), level) {
            return Err(CheckFault::Implicit(place));
        }
        Ok(())
    }

    // The instruction at a place keeps each rule; else the fault is of the smallest that it breaks.
    pub(crate) fn check_instruction<S: Scale, M: Meter>(
        &self,
        grounds: &Grounds<'_, S, M>,
        place: usize,
        instruction: Instruction,
    ) -> Result<(), CheckFault>
        requires { slice_get (said grounds.now.book.now).code place ≡ Some instruction }
        ensures { result_err result ≡ fault_at (setting_of S.meaning M.meaning grounds.now) place (held self.now.contexts) (held self.now.levels) instruction (drop (place + 1) (said grounds.now.book.now).code) }
    {
        let at = place as u32;
        if self.breaks_charge(grounds, instruction) {
            return Err(CheckFault::Charge(at));
        }
        match instruction {
            Instruction::Store(figure) => self.check_store(grounds, figure, at),
            Instruction::If => {
                let inside = self.stake(grounds, Instruction::If);
                if !grounds.on_clock(inside) && grounds.parts_differ(place) {
                    return Err(CheckFault::Parts(at));
                }
                Ok(())
            }
            _ => Ok(()),
        }
    }

    // Goes past an instruction.
    pub(crate) fn pass<S: Scale, M: Meter>(
        &mut self,
        grounds: &Grounds<'_, S, M>,
        instruction: Instruction,
    )
        ensures contexts { held self.new.contexts ≡ contexts_after (setting_of S.meaning M.meaning grounds.now) (held self.old.contexts) (held self.old.levels) instruction }
        ensures levels { held self.new.levels ≡ levels_after (setting_of S.meaning M.meaning grounds.now) (held self.old.levels) instruction }
    {
        let floor = grounds.scale.floor();
        match instruction {
            Instruction::Number(_) => {
                let _ = self.levels.push(floor);
            }
            Instruction::Figure(figure) => {
                let level = grounds.figure_level(figure);
                let _ = self.levels.push(level);
            }
            Instruction::Clock => {
                let _ = self.levels.push(grounds.book.clock_level());
            }
            Instruction::Operate(_) => {
                let second = self.levels.pop().unwrap_or(floor);
                let first = self.levels.pop().unwrap_or(floor);
                let _ = self.levels.push(grounds.scale.join(first, second));
            }
            Instruction::If => {
                let inside = self.stake(grounds, instruction);
                let _ = self.contexts.push(inside);
                self.levels.clear();
            }
            Instruction::Repeat(_) => {
                let context = self.contexts.top().unwrap_or(floor);
                let _ = self.contexts.push(context);
                self.levels.clear();
            }
            Instruction::End => {
                let _ = self.contexts.pop();
                self.levels.clear();
            }
            Instruction::Stop => {
                self.contexts.clear();
                self.levels.clear();
            }
            Instruction::Store(_) | Instruction::Wait(_) | Instruction::Else => self.levels.clear(),
        }
    }
}
