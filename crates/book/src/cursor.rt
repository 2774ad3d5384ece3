// A place in code, and looking ahead from it.
ghost use Rattle.std.specs.Prelude.{◌≡◌, ◌+◌, ◌^◌, ◌<◌, length, drop};
ghost use Rattle.book.specs.Sights.{Sees};
ghost use Rattle.book.specs.Looks.{ElseLaw, matching_else, seek as seek_from};

use crate::instruction::Instruction;

// Where a reader of code stands.
#[derive(Clone, Copy, PartialEq, Eq, Debug)]
pub struct Cursor {
    place: usize,
}

// A look ahead: it moves the cursor, and puts it back where it was when it is let go.
struct Lookahead<'a> {
    cursor: &'a mut Cursor,
    start: usize,
}

impl Drop for Lookahead<'_> {
    fn drop(self)
        ensures { self.exit.0.now.place ≡ self.entry.start }
    {
        self.cursor.place = self.start;
        let Lookahead {
            cursor: _,
            start: _,
        } = self;
    }
}

// How many blocks are open behind an instruction where `depth` have opened on the way to it, unless it ends the look
// ahead.
fn depth_behind(instruction: Instruction, depth: usize) -> Option<usize>
    requires { depth + 1 < 2 ^ 64 }
    ensures { Sees instruction depth result }
{
    match instruction {
        Instruction::If | Instruction::Repeat(_) => Some(depth + 1),
        Instruction::Else => (depth > 0).then_some(depth),
        Instruction::End => depth.checked_sub(1),
        Instruction::Stop => None,
        Instruction::Number(_)
        | Instruction::Figure(_)
        | Instruction::Clock
        | Instruction::Operate(_)
        | Instruction::Store(_)
        | Instruction::Wait(_) => Some(depth),
    }
}

impl Lookahead<'_> {
    // The first else outside the blocks that open on the way.
    fn seek(&mut self, code: &[Instruction]) -> Option<usize>
        ensures found { result ≡ seek_from 0 self.old.cursor.now.place (drop self.old.cursor.now.place code.now) }
        ensures start { self.new.start ≡ self.old.start }
        ensures lent { self.new.cursor.ghost_name ≡ self.old.cursor.ghost_name }
    {
        let mut depth = 0usize;
        // The place is the cursor's, which the guard puts back, so the loop moves it by hand.
        while let Some(instruction) = code.get(self.cursor.place) {
            let Some(behind) = depth_behind(*instruction, depth) else {
                return matches!(instruction, Instruction::Else).then_some(self.cursor.place);
            };
            depth = behind;
            self.cursor.place += 1;
        }
        None
    }
}

impl Cursor {
    pub fn new(place: usize) -> Self
        ensures { result.place ≡ place }
    {
        Cursor { place }
    }

    pub fn place(&self) -> usize
        ensures { result ≡ self.now.place }
    {
        self.place
    }

    // The place of the else that belongs to the if at the cursor. The cursor stays where it is.
    #[tactic(auto, using(crate::proofs::Looking::else_law))]
    pub fn matching_else(&mut self, code: &[Instruction]) -> Option<usize>
        ensures found { result ≡ matching_else code.now self.old.place }
        ensures same { self.new.place ≡ self.old.place }
        ensures law { ElseLaw }
    {
        let start = self.place;
        let mut ahead = Lookahead {
            cursor: self,
            start,
        };
        if !matches!(code.get(start), Some(Instruction::If)) {
            return None;
        }
        ahead.cursor.place = start + 1;
        ahead.seek(code)
    }
}
