// What a line of the script asks for.
ghost use Rattle.engine.specs.Seen.{paper_of};
ghost use Rattle.script.specs.Asked.{asked, call_spelled, meter_spelled, scale_spelled, slip_spelled, spelled};
ghost use Rattle.script.specs.Calls.{ask_of, call_of};
ghost use Rattle.script.specs.Words.{words_of};
ghost use Rattle.spelling.specs.Numerals.{texts};
ghost use Rattle.spelling.specs.Reads.{Reads};
ghost use Rattle.std.specs.Prelude.{◌≡◌, IfOk};

use crate::call::Call;
use engine::slip::Numbers;
use spelling::{SpellingFault, read_bytes, read_number, read_numbers};
use std::alloc::{AllocError, Global};

// The choices of a script: a table chooses from more kinds of scale and of meter, so its choices are enums of its own.
#[derive(Clone, Copy)]
pub(crate) enum ScaleChoice {
    Ladder(u32),
    Departments(u32),
}

#[derive(Clone, Copy)]
pub(crate) enum MeterChoice {
    Card([u32; 12]),
    Digit,
}

#[derive(Drop)]
pub(crate) enum Command {
    Scale(ScaleChoice),
    Meter(MeterChoice),
    Call(Call),
}

// The numbers on a slip.
fn read_slip(holder: &str, from: &str, to: &str, count: &str) -> Result<Numbers, SpellingFault>
    ensures { Reads paper_of (slip_spelled holder.now from.now to.now count.now) result }
{
    Ok(Numbers {
        holder: read_number(holder)?,
        from: read_number(from)?,
        to: read_number(to)?,
        number: read_number(count)?,
    })
}

// The scale that the words name.
fn read_scale(words: &[&str]) -> Result<ScaleChoice, SpellingFault>
    ensures { Reads (λ choice. choice) (scale_spelled (texts words.now)) result }
{
    match words {
        ["ladder", ranks] => Ok(ScaleChoice::Ladder(read_number(*ranks)?)),
        ["departments", count] => Ok(ScaleChoice::Departments(read_number(*count)?)),
        _ => Err(SpellingFault::Malformed),
    }
}

// The meter that the words name.
fn read_meter(words: &[&str]) -> Result<MeterChoice, SpellingFault>
    ensures { Reads (λ choice. choice) (meter_spelled (texts words.now)) result }
{
    match words {
        ["card", charges @ ..] => Ok(MeterChoice::Card(read_numbers(charges)?)),
        ["digit"] => Ok(MeterChoice::Digit),
        _ => Err(SpellingFault::Malformed),
    }
}

// The call that the words make.
fn read_call(heap: Global, words: &[&str]) -> Result<Call, SpellingFault>
    ensures { Reads call_of (call_spelled (texts words.now)) result }
{
    match words {
        ["load"] => Ok(Call::Load(Vec::new(heap))),
        ["load", bytes] => Ok(Call::Load(read_bytes(heap, *bytes)?)),
        ["put", figure, amount] => Ok(Call::Put {
            figure: read_number(*figure)?,
            amount: read_number(*amount)?,
        }),
        ["run", event] => Ok(Call::Run {
            event: read_number(*event)?,
        }),
        ["show", level, figure] => Ok(Call::Show {
            level: read_number(*level)?,
            figure: read_number(*figure)?,
        }),
        ["clock", level] => Ok(Call::Clock {
            level: read_number(*level)?,
        }),
        ["open", holder, from, to] => Ok(Call::Open {
            holder: read_number(*holder)?,
            from: read_number(*from)?,
            to: read_number(*to)?,
        }),
        ["carry", holder, from, to, count] => Ok(Call::Carry(read_slip(
            *holder, *from, *to, *count,
        )?)),
        ["withdraw", holder, from, to, count] => Ok(Call::Withdraw(read_slip(
            *holder, *from, *to, *count,
        )?)),
        ["tally"] => Ok(Call::Tally),
        _ => Err(SpellingFault::Malformed),
    }
}

// The command that the words make.
fn read_command(heap: Global, words: &[&str]) -> Result<Command, SpellingFault>
    ensures { Reads ask_of (spelled (texts words.now)) result }
{
    match words {
        ["scale", rest @ ..] => Ok(Command::Scale(read_scale(rest)?)),
        ["meter", rest @ ..] => Ok(Command::Meter(read_meter(rest)?)),
        all => Ok(Command::Call(read_call(heap, all)?)),
    }
}

// The words of a line.
fn split_words<'a>(heap: Global, line: &'a str) -> Result<Vec<&'a str>, AllocError>
    ensures { IfOk result (λ words. texts words.items ≡ words_of line.now) }
{
    line.split(' ').collect(heap)
}

impl Command {
    // The command of a line whose words have one space between them. It takes the heap, so it is no `TryFrom`.
    pub(crate) fn parse(heap: Global, line: &[u8]) -> Result<Command, SpellingFault>
        ensures { Reads ask_of (asked line.now) result }
    {
        if !line.is_ascii() {
            return Err(SpellingFault::Malformed);
        }
        let words = split_words(heap, std::str::from_utf8(line).unwrap())?;
        read_command(heap, words.as_slice())
    }
}
