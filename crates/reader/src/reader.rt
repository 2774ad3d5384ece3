// The reader: bytes to a book, or the first fault.
ghost use Rattle.std.specs.Prelude.{◌≡◌, ◌+◌, ◌*◌, ◌<◌, ◌≤◌, true, [], length, take, IfOk, slice_index};
ghost use Rattle.reader.specs.Books.{outcome};
ghost use Rattle.book.specs.Encodings.{ReaderLaw};
ghost use Rattle.book.specs.Reads.{Placed, first_of, long, raws, read_body, read_code, reading, scan as scanned, sound};
ghost use Rattle.reader.specs.Layouts.{arguments_at, codes_at};
ghost use Rattle.stack.specs.Stacks.{held};

use crate::decode::decode;
use crate::fields::{Field, row};
use crate::layout::Layout;
use crate::rulebook::Book;
use crate::scan::Scan;
use crate::weigh::check_end;
use book::instruction::Instruction;
use refusal::reader::ReaderFault;

impl Layout<'_> {
    // The instruction at a place: decoded, and right for the stack and the open blocks.
    fn instruction(&self, place: usize, scan: &mut Scan) -> Result<Instruction, ReaderFault>
        requires { place < self.now.count }
        ensures { Placed self.now.figures (slice_index self.now.bytes.now (codes_at self.now.figures + place)) (long self.now.bytes.now (arguments_at self.now.figures self.now.count + 4 * place)) place scan.old.height (held scan.old.blocks) result scan.new.height (held scan.new.blocks) }
    {
        let code = self.bytes[self.codes_at() + place];
        let argument = i32::read(self.bytes, self.arguments_at() + 4 * place);
        let number = place as u32;
        let fault = ReaderFault::Argument(number);
        let instruction = decode(self.figures, code, argument).ok_or(fault)?;
        scan.check(instruction, number)?;
        scan.pass(instruction);
        Ok(instruction)
    }

    // The instructions, in the first places of the row, or the first fault of one.
    // The row is an array of the largest size: nothing here allocates.
    fn instructions(&self) -> Result<[Instruction; 256], ReaderFault>
        ensures long { IfOk result (λ row. length row ≡ 256) }
        ensures items { first_of self.now.count result ≡ scanned self.now.figures 0 0 [] (raws self.now.count (codes_at self.now.figures) (arguments_at self.now.figures self.now.count) self.now.bytes.now) }
    {
        let mut row = [Instruction::Stop; 256];
        let mut scan = Scan::new();
        for (place, instruction) in row[..self.count].iter_mut().enumerate() {
            *instruction = self.instruction(place, &mut scan)?;
        }
        Ok(row)
    }

    // The instructions of well-formed code, or its first fault.
    fn code(&self) -> Result<[Instruction; 256], ReaderFault>
        ensures long { IfOk result (λ row. length row ≡ 256) }
        ensures sound { IfOk result (λ row. sound self.now.figures (take self.now.count row) ≡ true) }
        ensures items { first_of self.now.count result ≡ read_code self.now.figures self.now.count (codes_at self.now.figures) self.now.bytes.now }
    {
        let row = self.instructions()?;
        check_end(&row[..self.count])?;
        Ok(row)
    }

    // The book that the bytes are, or the first fault of its code.
    fn book(&self) -> Result<Book, ReaderFault>
        ensures { outcome result ≡ read_body self.now.figures self.now.count self.now.bytes.now }
    {
        Ok(Book {
            figures: self.figures,
            count: self.count,
            clock: u16::read(self.bytes, 4),
            levels: row(self.bytes, 6, self.figures),
            starts: row(self.bytes, 6 + 2 * self.figures, self.figures),
            code: self.code()?,
        })
    }
}

// The book that these bytes are, or the reader's fault: first the sizes and the length, then each
// instruction in turn, then the missing last stop, then the weight of each event.
#[tactic(auto, using(book::proofs::ReaderLaw::reader_law))]
pub fn read(bytes: &[u8]) -> Result<Book, ReaderFault>
    ensures outcome { outcome result ≡ reading bytes.now }
    ensures law { ReaderLaw }
{
    Layout::of(bytes)?.book()
}
