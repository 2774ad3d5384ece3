// The house's scale and meter, under which a book is checked if nothing else is chosen: a ladder of two ranks and a card of ones.
#![tactic(auto)]

ghost use Rattle.std.specs.Prelude.{◌≡◌};
ghost use Rattle.house.specs.Rulings.{ones, ruling, Settling};
ghost use Rattle.meter.specs.Cards.{card};
ghost use Rattle.meter.specs.MadeCards.{card_of};
ghost use Rattle.scale.specs.Ladders.{ladder};
ghost use Rattle.scale.specs.MadeLadders.{ladder_of};

use flowcheck::verdict::judge;
use line::Verdict;
use meter::card::Card;
use scale::ladder::Ladder;

// The bytes of the longest book: 32 figures and 256 instructions.
const LONGEST: u64 = 6 + 6 * 32 + 5 * 256;

// A public and a private level.
pub fn two_ranks() -> Ladder
    ensures { ladder_of result ≡ ladder 2 }
{
    Ladder::new(2).unwrap()
}

// Every instruction takes one tick.
pub fn card_of_ones() -> Card
    ensures { card_of result ≡ card ones }
{
    let mut card = Card::new();
    card.fill(&[1; 12]).unwrap();
    card
}

// How many bytes settle the verdict, whatever follows them: one more than any book has.
#[tactic(auto, using(crate::proofs::Settling::settles))]
pub fn enough() -> u64
    ensures { Settling result }
{
    LONGEST + 1
}

// The verdict on these bytes under the house's scale and meter.
pub fn rule(bytes: &[u8]) -> Verdict
    ensures { result ≡ ruling bytes.now }
{
    judge(&two_ranks(), &card_of_ones(), bytes)
}
