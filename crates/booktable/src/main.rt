// The program that checks a table of books. Each line of standard input has a scale, a meter and the bytes of a book,
// and gets one line on standard output: the verdict, or `error` if it cannot be read.
#![tactic(auto)]

mod choice;
mod row;
mod ruling;

use line::line_of;
use row::Row;
use spelling::SpellingFault;
use std::alloc::Global;
use std::io;
use std::io::{BufRead, BufReader};

// Whether a line of the table is there for its readers alone. A line of spaces is a row, which cannot be read; in a script
// it is passed over.
fn is_remark(line: &str) -> bool {
    line.is_empty() || line.starts_with('#')
}

fn answer(rt: &HostRuntime, heap: Global, line: &str) -> io::Result<()> {
    match Row::parse(heap, line) {
        Ok(row) => rt.write_all(line_of(row.verdict()).as_bytes()),
        Err(SpellingFault::Malformed) => rt.println("error"),
        Err(SpellingFault::Memory(error)) => Err(error.into()),
    }
}

fn main(rt: HostRuntime) -> io::Result<()> {
    let heap = rt.alloc();
    for line in BufReader::new(heap, rt.stdin())?.lines(heap) {
        let line = line?;
        if !is_remark(line.as_str()) {
            answer(&rt, heap, line.as_str())?;
        }
    }
    Ok(())
}
