// The one line that a checking program prints about a rule book: `accepted EVENTS`, or `refused NUMBER LAYER PLACE`.
#![tactic(auto)]

ghost use Rattle.std.specs.Prelude.{◌≡◌, ◌≤◌, length};
ghost use Rattle.line.specs.Lines.{line, Readable, Written};

use arrayvec::ArrayString;
use itoa::Buffer;
use refusal::{MakerFault, Refusal};

// Every line fits this many bytes.
pub const ROOM: usize = 32;

// What became of a rule book: accepted, with the number of its events, or refused.
pub type Verdict = Result<u32, Refusal>;

// The verdict's line. Its parts are pushed one by one, since a `write!` may fail for all that its contract says.
pub fn line_of(verdict: Verdict) -> ArrayString<ROOM>
    ensures text { result.bytes ≡ line verdict }
    ensures short { length result.bytes ≤ 30 }
{
    let mut line = ArrayString::new();
    let mut digits = Buffer::new();
    match verdict {
        Ok(events) => {
            line.push_str("accepted ");
            line.push_str(digits.format(events));
        }
        Err(refusal) => {
            line.push_str("refused ");
            line.push_str(digits.format(refusal.number));
            line.push_str(" ");
            line.push_str(refusal.layer.name());
            line.push_str(" ");
            line.push_str(digits.format(refusal.place));
        }
    }
    line.push_str("\n");
    line
}

// Writes the verdict's line to the start of the caller's buffer, as C lends it, and answers the line's length.
#[tactic(auto, using(crate::proofs::ReadBack::readable))]
pub fn write_line(verdict: Verdict, buffer: &mut [u8]) -> Result<usize, MakerFault>
    ensures written { Written verdict buffer.old result buffer.new }
    ensures readable { Readable }
{
    if buffer.len() < ROOM {
        return Err(MakerFault::LineBuffer);
    }
    let line = line_of(verdict);
    buffer[..line.len()].copy_from_slice(line.as_bytes());
    Ok(line.len())
}

#[cfg(test)]
mod tests {
    use super::*;
    use refusal::Layer;
    use std::process::Abort;
    use std::test::Fail;

    // The line of a verdict is the expected one, and the rest of the buffer stays.
    fn check_line(rt: &impl Abort, verdict: Verdict, expected: &[u8]) -> Result<(), Fail> {
        let mut buffer = [7; 40];
        let length = write_line(verdict, &mut buffer)?;
        assert!(rt; length <= 30);
        assert_eq!(rt; &buffer[0..length], expected);
        assert_eq!(rt; buffer[length], 7);
        assert_eq!(rt; buffer[39], 7);
        Ok(())
    }

    fn refused(number: u8, layer: Layer, place: u32) -> Verdict {
        Err(Refusal {
            number,
            layer,
            place,
        })
    }

    #[test]
    fn accepted_lines(rt: HostRuntime) -> Result<(), Fail> {
        check_line(&rt, Ok(0), b"accepted 0\n")?;
        check_line(&rt, Ok(1), b"accepted 1\n")?;
        check_line(&rt, Ok(4_294_967_295), b"accepted 4294967295\n")
    }

    #[test]
    fn refused_lines(rt: HostRuntime) -> Result<(), Fail> {
        check_line(&rt, refused(1, Layer::Reader, 0), b"refused 1 reader 0\n")?;
        check_line(&rt, refused(11, Layer::Check, 1), b"refused 11 check 1\n")?;
        check_line(
            &rt,
            refused(13, Layer::Engine, 4_294_967_295),
            b"refused 13 engine 4294967295\n",
        )?;
        check_line(
            &rt,
            refused(20, Layer::Maker, 100),
            b"refused 20 maker 100\n",
        )
    }

    // The longest line has 30 bytes.
    #[test]
    fn longest_line(rt: HostRuntime) -> Result<(), Fail> {
        check_line(
            &rt,
            refused(255, Layer::Engine, 4_294_967_295),
            b"refused 255 engine 4294967295\n",
        )
    }

    #[test]
    fn room_of_32_and_31(rt: HostRuntime) {
        let mut enough = [7; 32];
        assert_eq!(rt; write_line(Ok(5), &mut enough), Ok(11));
        let mut short = [7; 31];
        assert_eq!(rt; write_line(Ok(5), &mut short), Err(MakerFault::LineBuffer));
        assert_eq!(rt; short, [7; 31]);
    }
}
