// What C can call: the check of a book, and a script that is played from its first line to its last.
#![tactic(auto)]

ghost use Rattle.exports.specs.Answers.{CheckAnswered, ScriptAnswered};
ghost use Rattle.exports.specs.Written.{answer_of};
ghost use Rattle.exports.specs.declared.Reason.TheVariants.{NoMemory};
ghost use Rattle.std.specs.Prelude.{◌≡◌};

use house::rule;
use line::write_line;
use script::play::play;
use std::alloc::{AllocError, Global};

// 0 and how many bytes were written, or why none were: a `Result` as C reads it.
#[repr(C)]
#[derive(Drop)]
pub struct Answer {
    pub refusal: u32,
    pub length: usize,
}

// Why nothing is written, with the number that C reads.
#[derive(Clone, Copy)]
enum Reason {
    // The transcript has no room in the buffer, or the buffer has fewer than 32 bytes for a line.
    NoRoom = 20,
    NoMemory = 255,
}

impl From<AllocError> for Reason {
    ghost from_gives = { λ _ reason. reason ≡ NoMemory };

    fn from(_error: AllocError) -> Reason {
        Reason::NoMemory
    }
}

impl From<Result<usize, Reason>> for Answer {
    ghost from_gives = { λ written answer. answer ≡ answer_of written };

    fn from(written: Result<usize, Reason>) -> Answer {
        match written {
            Ok(length) => Answer { refusal: 0, length },
            Err(reason) => Answer {
                refusal: reason as u32,
                length: 0,
            },
        }
    }
}

// Writes the line about a book to the start of the buffer `line`.
#[unsafe(no_mangle)]
pub extern "C" fn faultsieve_check(book: &[u8], line: &mut [u8]) -> Answer
    ensures { CheckAnswered book.now line.old result line.new }
{
    let written = write_line(rule(book), line).map_err(|_| Reason::NoRoom);
    written.into()
}

// Plays a script, and writes what it is answered to the start of the buffer.
fn write_transcript(heap: Global, script: &[u8], transcript: &mut [u8]) -> Result<usize, Reason>
    ensures { ScriptAnswered script.now transcript.old (answer_of result) transcript.new }
{
    let text = play(heap, script)?;
    let length = text.len();
    if length > transcript.len() {
        return Err(Reason::NoRoom);
    }
    transcript[0..length].copy_from_slice(text.as_bytes());
    Ok(length)
}

// Plays a script on a console of its own, and writes what it is answered to the start of the buffer `transcript`.
#[unsafe(no_mangle)]
pub extern "C" fn faultsieve_script(heap: Global, script: &[u8], transcript: &mut [u8]) -> Answer
    ensures { ScriptAnswered script.now transcript.old result transcript.new }
{
    write_transcript(heap, script, transcript).into()
}
