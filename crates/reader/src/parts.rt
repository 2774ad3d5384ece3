// What a book says, part by part.
ghost use Rattle.reader.specs.Books.{said};
ghost use Rattle.std.specs.Prelude.{◌≡◌, length};
ghost use Rattle.book.specs.Trees.{events as events_of};

use crate::rulebook::Book;
use book::codes::is_stop;
use book::instruction::Instruction;

impl Book {
    // How many events there are.
    #[tactic(auto, using(book::proofs::Events::stops_sound))]
    pub fn events(&self) -> u32
        ensures { result ≡ length (events_of (said self.now).code) }
    {
        let mut count = 0;
        // A sum of ones: `filter` and `count` take twice the time.
        for instruction in self.code() {
            count += u32::from(is_stop(*instruction));
        }
        count
    }

    // The code of the clock's level.
    pub fn clock_level(&self) -> u16
        ensures { result ≡ (said self.now).clock }
    {
        self.clock
    }

    // The codes of the figures' levels.
    pub fn levels(&self) -> &[u16]
        ensures { result.now ≡ (said self.now).levels }
    {
        &self.levels[..self.figures]
    }

    // The figures' start amounts.
    pub fn starts(&self) -> &[i32]
        ensures { result.now ≡ (said self.now).starts }
    {
        &self.starts[..self.figures]
    }

    // The instructions, all events' one after the other.
    pub fn code(&self) -> &[Instruction]
        ensures { result.now ≡ (said self.now).code }
    {
        &self.code[..self.count]
    }
}
