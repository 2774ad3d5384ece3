// A book made ready to run: its jumps are looked up once.
ghost use Rattle.reader.specs.Books.{said};
ghost use Rattle.machine.specs.Jumps.{jumps_from};
ghost use Rattle.std.specs.Prelude.{◌≡◌, length, take};

use reader::rulebook::Book;

// The jumps of the book's places, 0 where nothing jumps. A row of the largest size beside the reader's book: nothing here
// allocates, a program is `Copy`, which an `ArrayVec` is not, and a run takes its jumps without a test.
#[derive(Clone, Copy)]
pub struct Program {
    pub(crate) book: Book,
    pub(crate) jumps: [u16; 256],
    ghost room: { length jumps ≡ 256 },
    ghost right: { take (length (said book).code) jumps ≡ jumps_from (said book).code (length (said book).code) 0 },
}
