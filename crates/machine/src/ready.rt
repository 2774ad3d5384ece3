// Making a program of a book, and finding its events.
ghost use Rattle.std.specs.Prelude.{◌≡◌, ◌≤◌, length, take};
ghost use Rattle.reader.specs.Books.{said};
ghost use Rattle.machine.specs.Events.{event_at};
ghost use Rattle.machine.specs.Jumps.{jump_from, jumps_from};

use crate::jumps::jump_from;
use crate::program::Program;
use book::codes::is_stop;
use book::instruction::Instruction;
use reader::rulebook::Book;

// The jumps of all places, in the first places of the row.
fn jumps_of(book: &Book) -> [u16; 256]
    ensures long { length result ≡ 256 }
    ensures items { take (length (said book.now).code) result ≡ jumps_from (said book.now).code (length (said book.now).code) 0 }
{
    let code = book.code();
    let mut row = [0; 256];
    // By place: over the row's own `iter_mut`, taken as far as the code goes, the proof did not close.
    for (place, instruction) in code.iter().enumerate() {
        row[place] = jump_from(code, place, *instruction).unwrap_or(0) as u16;
    }
    row
}

impl Program {
    // The book, ready to run.
    pub fn new(book: Book) -> Self
        ensures { said result.book ≡ said book }
    {
        let jumps = jumps_of(&book);
        Program { book, jumps }
    }

    // The book.
    pub fn book(&self) -> &Book
        ensures { result.now ≡ self.now.book }
    {
        &self.book
    }

    // The place where an event starts.
    pub(crate) fn start_of(&self, event: u32) -> Option<usize>
        ensures { result ≡ event_at event 0 (said self.now.book).code }
    {
        start_in(self.book.code(), event)
    }
}

// The first instruction of an event.
fn start_in(code: &[Instruction], event: u32) -> Option<usize>
    ensures { result ≡ event_at event 0 code.now }
{
    let mut left = event;
    for (place, instruction) in code.iter().enumerate() {
        if left == 0 {
            return Some(place);
        }
        if is_stop(*instruction) {
            left -= 1;
        }
    }
    None
}
