// A row of the table: what a book is checked under, and its bytes.
ghost use Rattle.booktable.specs.Rows.{Ruled};

use crate::choice::{MeterChoice, ScaleChoice};
use crate::ruling::rule_under;
use line::Verdict;
use spelling::{SpellingFault, read_bytes};
use std::alloc::Global;

#[derive(Drop)]
pub(crate) struct Row {
    scale: ScaleChoice,
    meter: MeterChoice,
    bytes: Vec<u8>,
}

impl Row {
    // The row of a line with three words, one space between them. It takes the heap, so it is no `FromStr`.
    pub(crate) fn parse(heap: Global, line: &str) -> Result<Row, SpellingFault> {
        let (scale, rest) = line.split_once(' ').ok_or(SpellingFault::Malformed)?;
        let (meter, bytes) = rest.split_once(' ').ok_or(SpellingFault::Malformed)?;
        Ok(Row {
            scale: scale.parse()?,
            meter: meter.parse()?,
            bytes: read_bytes(heap, bytes)?,
        })
    }

    // The verdict on the book.
    pub(crate) fn verdict(&self) -> Verdict
        ensures { Ruled self.now.scale self.now.meter self.now.bytes.items result }
    {
        rule_under(self.scale, self.meter, self.bytes.as_slice())
    }
}
