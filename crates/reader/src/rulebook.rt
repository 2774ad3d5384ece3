// The book that the reader makes. Only the reader makes one, so that every book is well formed.
ghost use Rattle.std.specs.Prelude.{◌≡◌, ◌≤◌, true, length, take};
ghost use Rattle.book.specs.Reads.{sound};

use book::instruction::Instruction;

#[derive(Clone, Copy)]
pub struct Book {
    pub(crate) figures: usize,
    pub(crate) count: usize,
    pub(crate) clock: u16,
    // Arrays of the largest sizes, in use up to the sizes beside them: nothing here allocates, and a book is `Copy`, which
    // an `ArrayVec` is not.
    // The levels and the start amounts are rows apart, since each is lent as a slice.
    pub(crate) levels: [u16; 32],
    pub(crate) starts: [i32; 32],
    pub(crate) code: [Instruction; 256],
    ghost sizes: { (figures ≤ 32) × (count ≤ 256) × (length levels ≡ 32) × (length starts ≡ 32) × (length code ≡ 256) },
    // The instructions, as bytes once more, pass the reader's own questions.
    ghost formed: { sound figures (take count code) ≡ true },
}
