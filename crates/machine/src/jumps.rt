// Where a run goes on when it leaves out a part.
ghost use Rattle.std.specs.Prelude.{◌≡◌, ◌+◌, ◌^◌, ◌<◌, ◌≤◌, IfSome, length};
ghost use Rattle.machine.specs.Depths.{Behind};
ghost use Rattle.machine.specs.Jumps.{end_behind, target};

use book::cursor::Cursor;
use book::instruction::Instruction;

// How many blocks are open behind an instruction; none where it is the end that is looked for. An else and a stop end
// a look ahead for an else but not this one, so each search has a function of its own.
fn depth_behind(instruction: Instruction, depth: usize) -> Option<usize>
    requires { depth + 1 < 2 ^ 64 }
    ensures { Behind instruction depth result }
{
    match instruction {
        Instruction::If | Instruction::Repeat(_) => Some(depth + 1),
        Instruction::End => depth.checked_sub(1),
        _ => Some(depth),
    }
}

// The end of the block that the instruction at a place opens or goes on with.
fn end_behind(code: &[Instruction], place: usize) -> usize
    requires { place < length code.now }
    ensures end { result ≡ end_behind code.now place }
    ensures within { result ≤ length code.now }
{
    let mut depth = 0;
    for (passed, instruction) in code[place + 1..].iter().enumerate() {
        match depth_behind(*instruction, depth) {
            Some(behind) => depth = behind,
            None => return place + 1 + passed,
        }
    }
    code.len()
}

// The jump from an instruction at a place; none where nothing jumps.
pub(crate) fn jump_from(
    code: &[Instruction],
    place: usize,
    instruction: Instruction,
) -> Option<usize>
    requires { place < length code.now }
    ensures to { result ≡ target code.now place instruction }
    ensures within { IfSome result (λ jump. jump ≤ length code.now) }
{
    match instruction {
        Instruction::If => {
            let mut cursor = Cursor::new(place);
            match cursor.matching_else(code) {
                Some(other) => Some(other + 1),
                None => Some(end_behind(code, place)),
            }
        }
        Instruction::Repeat(_) | Instruction::Else => Some(end_behind(code, place)),
        _ => None,
    }
}
