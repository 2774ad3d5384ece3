// What a console does, line by line.
ghost use Rattle.house.specs.Rulings.{ones};
ghost use Rattle.meter.specs.Cards.{card};
ghost use Rattle.scale.specs.Ladders.{ladder};
ghost use Rattle.script.specs.Calls.{ask_of};
ghost use Rattle.script.specs.Chosen.{meter_of, scale_of};
ghost use Rattle.script.specs.Consoles.{console_of, Fresh, Obeyed, obeying, opened, renewed, reply_of, replying};
ghost use Rattle.script.specs.Scripts.{after as console_after, reply as reply_to};
ghost use Rattle.std.specs.Prelude.{◌≡◌, MatchResult};

use crate::chosen::{ChosenMeter, ChosenScale, make_meter, make_scale};
use crate::command::Command;
use crate::console::Console;
use crate::desk::Desk;
use crate::remarks::is_remark;
use crate::reply::Reply;
use house::{card_of_ones, two_ranks};
use refusal::MakerFault;
use spelling::SpellingFault;
use std::alloc::{AllocError, Global};

impl Console {
    // A console as a script finds it: a ladder of two ranks, a card of ones and a fresh engine.
    pub fn new() -> Console
        ensures scale { scale_of result.scale ≡ ladder 2 }
        ensures meter { meter_of result.meter ≡ card ones }
        ensures desk { Fresh result.desk result.scale result.meter }
        ensures model { console_of result ≡ opened }
    {
        let scale = ChosenScale::Ladder(two_ranks());
        let meter = ChosenMeter::Card(card_of_ones());
        Console {
            scale,
            meter,
            desk: Desk::new(scale, meter),
        }
    }

    // Puts a fresh engine in the place of the old one.
    fn renew(&mut self, scale: ChosenScale, meter: ChosenMeter)
        ensures desk { Fresh self.new.desk scale meter }
        ensures kept { (self.new.scale ≡ scale) × (self.new.meter ≡ meter) }
        ensures model { console_of self.new ≡ renewed (scale_of scale) (meter_of meter) }
    {
        let old = std::mem::replace(&mut self.desk, Desk::new(scale, meter));
        self.scale = scale;
        self.meter = meter;
        let _ = old.close();
    }

    // Does what a line asks for. A scale or a meter that cannot be made changes nothing.
    fn follow(&mut self, command: &Command) -> Result<Reply, MakerFault>
        ensures obeyed { Obeyed command.now self.old self.new (reply_of result) }
        ensures reply { reply_of result ≡ replying (console_of self.old) (ask_of command.now) }
        ensures after { console_of self.new ≡ obeying (console_of self.old) (ask_of command.now) }
    {
        match command {
            Command::Scale(choice) => {
                let scale = make_scale(*choice)?;
                self.renew(scale, self.meter);
                Ok(Reply::Done)
            }
            Command::Meter(choice) => {
                let meter = make_meter(*choice)?;
                self.renew(self.scale, meter);
                Ok(Reply::Done)
            }
            Command::Call(call) => Ok(self.desk.apply(call)),
        }
    }

    // Does what a line asks for, and replies.
    fn obey(&mut self, command: &Command) -> Reply
        ensures obeyed { Obeyed command.now self.old self.new result }
        ensures reply { result ≡ replying (console_of self.old) (ask_of command.now) }
        ensures after { console_of self.new ≡ obeying (console_of self.old) (ask_of command.now) }
    {
        self.follow(command).unwrap_or_else(Reply::from)
    }

    // Answers a line of the script, unless it is there for its readers alone.
    pub fn answer(&mut self, heap: Global, line: &[u8]) -> Result<Option<Reply>, AllocError>
        ensures { MatchResult result (λ reply. (reply ≡ reply_to (console_of self.old) line.now) × (console_of self.new ≡ console_after (console_of self.old) line.now)) (λ _. console_of self.new ≡ console_of self.old) }
    {
        if is_remark(line) {
            return Ok(None);
        }
        match Command::parse(heap, line) {
            Ok(command) => Ok(Some(self.obey(&command))),
            Err(SpellingFault::Malformed) => Ok(Some(Reply::Unreadable)),
            Err(SpellingFault::Memory(error)) => Err(error),
        }
    }

    // Ends the script.
    pub fn close(self) {
        let Console {
            scale: _,
            meter: _,
            desk,
        } = self;
        let _ = desk.close();
    }
}
