// The program that checks one rule book: its bytes come on standard input, and one line about it goes to standard output.
#![tactic(auto)]

ghost use Rattle.house.specs.Rulings.{ruling};
ghost use Rattle.line.specs.Lines.{line};
ghost use Rattle.std.specs.Prelude.{◌≡◌};

use arrayvec::ArrayString;
use house::{enough, rule};
use line::{ROOM, line_of};
use std::alloc::Global;
use std::io;
use std::io::{Read, Write};

// The bytes of the input, or the first of them, enough to settle the verdict.
fn read_bytes(input: impl Read + Drop, heap: Global) -> io::Result<Vec<u8>> {
    let mut bytes = Vec::new(heap);
    input.take(enough()).read_to_end(&mut bytes)?;
    Ok(bytes)
}

// The line about these bytes.
fn line_about(bytes: &[u8]) -> ArrayString<ROOM>
    ensures { result.bytes ≡ line (ruling bytes.now) }
{
    line_of(rule(bytes))
}

fn main(rt: HostRuntime) -> io::Result<()> {
    let bytes = read_bytes(rt.stdin(), rt.alloc())?;
    rt.stdout()
        .write_all(line_about(bytes.as_slice()).as_bytes())
}
