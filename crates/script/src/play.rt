// A script that is held in memory, played from its first line to its last.
ghost use Rattle.std.specs.Prelude.{◌≡◌, IfOk, string_bytes};
ghost use Rattle.script.specs.Consoles.{console_of};
ghost use Rattle.script.specs.Scripts.{answers, lines_of, transcript as transcript_of};

use crate::console::Console;
use std::alloc::{AllocError, Global};

// Answers the lines of a script.
fn answer_all(heap: Global, console: &mut Console, script: &[u8]) -> Result<String, AllocError>
    ensures { IfOk result (λ text. string_bytes text ≡ answers (console_of console.old) (lines_of script.now)) }
{
    let mut transcript = String::new(heap);
    // Behind a last line feed one empty line more is split off, which is passed over.
    for line in script.split(|byte| *byte == b'\n') {
        if let Some(reply) = console.answer(heap, line)? {
            transcript.writeln(reply)?;
        }
    }
    Ok(transcript)
}

// Plays a script on a console of its own, and answers the transcript: the line of each reply, with a line feed.
pub fn play(heap: Global, script: &[u8]) -> Result<String, AllocError>
    ensures { IfOk result (λ text. string_bytes text ≡ transcript_of script.now) }
{
    let mut console = Console::new();
    let transcript = answer_all(heap, &mut console, script);
    console.close();
    transcript
}
