// The making of ladders, and the answers of a ladder as a scale.
ghost use Rattle.scale.specs.MadeLadders.{LadderMade, ladder_of};

use super::Ladder;
use crate::scale::Scale;
use refusal::MakerFault;

// The code of the lowest rank.
const LOWEST: u16 = 0;

impl Ladder {
    // A ladder of 1 to 256 ranks.
    pub fn new(ranks: u32) -> Result<Ladder, MakerFault>
        ensures { LadderMade ranks result }
    {
        match u16::try_from(ranks) {
            Ok(ranks @ 1..=256) => Ok(Ladder { ranks }),
            _ => Err(MakerFault::Ranks),
        }
    }
}

impl Scale for Ladder {
    ghost meaning = { ladder_of };

    fn known(&self, code: u16) -> bool {
        code < self.ranks
    }

    fn at_or_below(&self, low: u16, high: u16) -> bool {
        low <= high && high < self.ranks
    }

    fn join(&self, one: u16, other: u16) -> u16 {
        if one < self.ranks && other < self.ranks {
            one.max(other)
        } else {
            LOWEST
        }
    }

    fn floor(&self) -> u16 {
        LOWEST
    }

    fn laws(&self) {}
}
