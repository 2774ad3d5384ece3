// The line of each reply. The words for a loaded book and a refusal are those of the crate `line`, which puts its lines
// together without a writer that could fail, and with a line feed.
ghost use Rattle.script.specs.Lines.{line_of};
ghost use Rattle.std.specs.Prelude.{Some};

use crate::reply::Reply;
use engine::slip::{Numbers, Tally};
use refusal::Refusal;
use std::fmt;

impl fmt::Display for Reply {
    ghost output = { λ reply. Some (line_of reply) };

    fn fmt<W: fmt::Write>(&self, f: &mut fmt::Formatter<W>) -> fmt::Result {
        match *self {
            Reply::Unreadable => write!(f, "error"),
            Reply::Done => write!(f, "ok"),
            Reply::Loaded(events) => write!(f, "accepted {events}"),
            Reply::Amount(amount) => write!(f, "amount {amount}"),
            Reply::Clock(time) => write!(f, "clock {time}"),
            Reply::Opened(
                Numbers {
                    holder,
                    from,
                    to,
                    number,
                },
            ) => write!(f, "slip {holder} {from} {to} {number}"),
            Reply::Counts(
                Tally {
                    openings,
                    carries,
                    withdrawals,
                },
            ) => write!(f, "tally {openings} {carries} {withdrawals}"),
            Reply::Refused(
                Refusal {
                    number,
                    layer,
                    place,
                },
            ) => write!(f, "refused {number} {layer} {place}"),
        }
    }
}
