// What one line of a script is answered, and the reply that each fault is.
ghost use Rattle.engine.specs.Models.{refused};
ghost use Rattle.refusal.specs.Makers.{maker_refusal};
ghost use Rattle.script.specs.Replies.{reply_to};
ghost use Rattle.script.specs.declared.reply.Reply.TheVariants.{Refused};
ghost use Rattle.std.specs.Prelude.{◌≡◌};

use engine::slip::{Numbers, Tally};
use refusal::engine::EngineFault;
use refusal::{MakerFault, Refusal};

#[derive(Clone, Copy)]
pub enum Reply {
    // The line is none of the script's.
    Unreadable,
    // The call is accepted, and there is nothing else to say.
    Done,
    // A book with so many events is loaded.
    Loaded(u32),
    Amount(i32),
    Clock(u64),
    // The slip that was opened.
    Opened(Numbers),
    Counts(Tally),
    Refused(Refusal),
}

// The reply to a refused call.
impl From<EngineFault> for Reply {
    ghost from_gives = { λ fault reply. reply ≡ reply_to (refused fault) };

    fn from(fault: EngineFault) -> Reply {
        Reply::Refused(fault.into())
    }
}

// The reply to the choice of a scale or a meter that cannot be made.
impl From<MakerFault> for Reply {
    ghost from_gives = { λ fault reply. reply ≡ Refused (maker_refusal fault) };

    fn from(fault: MakerFault) -> Reply {
        Reply::Refused(fault.into())
    }
}
