// The program that plays a script of calls: each line of standard input that is not passed over gets one line on
// standard output, which says what became of it.
#![tactic(auto)]

use script::console::Console;
use std::io;
use std::io::{BufRead, BufReader};

// Answers the script line by line, as the lines come; `play` has a script whole, and writes to a string.
fn answer_all(rt: &HostRuntime, console: &mut Console) -> io::Result<()> {
    let heap = rt.alloc();
    for line in BufReader::new(heap, rt.stdin())?.split(heap, b'\n') {
        let line = line?;
        if let Some(reply) = console.answer(heap, line.as_slice())? {
            rt.println(reply)?;
        }
    }
    Ok(())
}

fn main(rt: HostRuntime) -> io::Result<()> {
    let mut console = Console::new();
    let answered = answer_all(&rt, &mut console);
    console.close();
    answered
}
