// The making and filling of cards, and the answers of a card as a meter.
ghost use Rattle.meter.specs.Cards.{card, blank};
ghost use Rattle.meter.specs.MadeCards.{Filled, card_of};
ghost use Rattle.std.specs.Prelude.{◌≡◌};

use super::Card;
use crate::meter::{Meter, is_instruction};
use refusal::MakerFault;

// The most that one instruction may be charged.
const MOST: u32 = 1000;

impl Card {
    // A card that charges nothing.
    pub fn new() -> Card
        ensures { card_of result ≡ card blank }
    {
        Card { charges: [0; 12] }
    }

    // Fills the card with the charges of the codes 1 to 12, all or none.
    pub fn fill(&mut self, charges: &[u32; 12]) -> Result<(), MakerFault>
        ensures { Filled charges.now self.old self.new result }
    {
        if charges.iter().any(|charge| *charge > MOST) {
            return Err(MakerFault::Charge);
        }
        self.charges = *charges;
        Ok(())
    }
}

impl Meter for Card {
    const LARGEST: u32 = MOST;

    ghost meaning = { card_of };

    fn charge(&self, code: u8, _first: i32, _second: i32) -> u32 {
        if is_instruction(code) {
            self.charges[usize::from(code) - 1]
        } else {
            0
        }
    }

    fn steady(&self, _code: u8) -> bool {
        true
    }

    fn largest_charge(&self) -> u32 {
        Self::LARGEST
    }

    fn laws(&self) {}
}
