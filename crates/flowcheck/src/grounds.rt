// What the check of one book rests on: a scale, a meter and the book.
ghost use Rattle.std.specs.Prelude.{◌≡◌, ◌+◌, ◌<◌, not, drop, length, slice_get, ◌==◌, slice_index_or};
ghost use Rattle.reader.specs.Books.{said};
ghost use Rattle.book.specs.Trees.{here, parse};
ghost use Rattle.book.specs.declared.instruction.Instruction.TheVariants.{If};
ghost use Rattle.flowcheck.specs.Settings.{setting_of};
ghost use Rattle.flowcheck.specs.Tolls.{second_ahead, toll};
ghost use Rattle.flowcheck.specs.Walks.{figure_level, on_clock};
ghost use Rattle.stack.specs.Stacks.{held};

use crate::tolls::toll_of;
use book::cursor::Cursor;
use book::instruction::Instruction;
use meter::meter::Meter;
use reader::rulebook::Book;
use scale::scale::Scale;
use stack::Stack;

#[derive(Drop)]
pub(crate) struct Grounds<'a, S, M> {
    pub(crate) scale: &'a S,
    pub(crate) meter: &'a M,
    pub(crate) book: &'a Book,
}

// What stands behind a place.
fn behind(code: &[Instruction], place: usize) -> &[Instruction]
    requires { place < length code.now }
    ensures { result.now ≡ drop (place + 1) code.now }
{
    &code[place + 1..]
}

impl<S: Scale, M: Meter> Grounds<'_, S, M> {
    // The level on top of a stack; the floor where it is empty.
    pub(crate) fn top(&self, levels: &Stack<u16>) -> u16
        ensures { result ≡ slice_index_or (held levels.now) 0 (S.meaning self.now.scale.now).floor }
    {
        levels.top().unwrap_or_else(|| self.scale.floor())
    }

    // The level of a figure.
    pub(crate) fn figure_level(&self, figure: u8) -> u16
        ensures { result ≡ figure_level (setting_of S.meaning M.meaning self.now) figure }
    {
        let levels = self.book.levels();
        levels
            .get(usize::from(figure))
            .copied()
            .unwrap_or_else(|| self.scale.floor())
    }

    // Whether the clock may show what has this level.
    pub(crate) fn on_clock(&self, level: u16) -> bool
        ensures { result ≡ on_clock (setting_of S.meaning M.meaning self.now) level }
    {
        self.scale.at_or_below(level, self.book.clock_level())
    }

    // Whether the two parts of the if at a place have different tolls.
    #[tactic(auto, using(crate::proofs::Parts::part_tolls))]
    pub(crate) fn parts_differ(&self, place: usize) -> bool
        requires { slice_get (said self.now.book.now).code place ≡ Some If }
        ensures { let ahead = parse (drop (place + 1) (said self.now.book.now).code) in result ≡ not (toll (M.meaning self.now.meter.now) (here ahead) == toll (M.meaning self.now.meter.now) (second_ahead ahead)) }
    {
        self.meter.laws();
        let code = self.book.code();
        let first = toll_of(self.meter, behind(code, place));
        let second = match Cursor::new(place).matching_else(code) {
            Some(other) => toll_of(self.meter, behind(code, other)),
            None => 0,
        };
        first != second
    }
}
