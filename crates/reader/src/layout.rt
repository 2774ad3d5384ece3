// Where the parts of a book stand in its bytes.
ghost use Rattle.std.specs.Prelude.{◌≡◌, ◌+◌, ◌*◌, ◌≤◌, length, MatchResult};
ghost use Rattle.book.specs.Reads.{read_body, reading};
ghost use Rattle.reader.specs.Layouts.{arguments_at, codes_at};

use crate::fields::Field;
use refusal::reader::ReaderFault;

// Bytes that begin with these sizes, and are as long as those ask for.
#[derive(Clone, Copy)]
pub(crate) struct Layout<'a> {
    pub(crate) bytes: &'a [u8],
    pub(crate) figures: usize,
    pub(crate) count: usize,
    ghost sizes: { (figures ≤ 32) × (count ≤ 256) },
    ghost fits: { length bytes.now ≡ 6 + 6 * figures + 5 * count },
}

impl Layout<'_> {
    // The layout that the sizes ask for, or the fault of a size or of the length.
    pub(crate) fn of(bytes: &[u8]) -> Result<Layout<'_>, ReaderFault>
        ensures { MatchResult result (λ layout. (layout.bytes.now ≡ bytes.now) × (reading bytes.now ≡ read_body layout.figures layout.count bytes.now)) (λ fault. reading bytes.now ≡ Err fault) }
    {
        if bytes.len() < 6 {
            return Err(ReaderFault::Length);
        }
        let figures = usize::from(u16::read(bytes, 0));
        let count = usize::from(u16::read(bytes, 2));
        if figures > 32 {
            return Err(ReaderFault::TooManyFigures);
        }
        if count > 256 {
            return Err(ReaderFault::TooManyInstructions);
        }
        if bytes.len() != 6 + 6 * figures + 5 * count {
            return Err(ReaderFault::Length);
        }
        Ok(Layout {
            bytes,
            figures,
            count,
        })
    }

    // Where the instructions' codes begin.
    pub(crate) fn codes_at(&self) -> usize
        ensures { result ≡ codes_at self.now.figures }
    {
        6 + 6 * self.figures
    }

    // Where their arguments begin.
    pub(crate) fn arguments_at(&self) -> usize
        ensures { result ≡ arguments_at self.now.figures self.now.count }
    {
        self.codes_at() + self.count
    }
}
