// The scale and the meter that a script chose, each of one of two kinds. One engine type serves them all.
ghost use Rattle.script.specs.Chosen.{MeterMade, meter_made, meter_of, ScaleMade, scale_made, scale_of};
ghost use Rattle.std.specs.Option.{option_map};
ghost use Rattle.std.specs.Result.{result_ok};
ghost use Rattle.std.specs.Prelude.{◌≡◌};

use crate::command::{MeterChoice, ScaleChoice};
use meter::card::Card;
use meter::digit::Digit;
use meter::meter::Meter;
use refusal::MakerFault;
use scale::departments::Departments;
use scale::ladder::Ladder;
use scale::scale::Scale;

// A match in each method, here and below: a `dyn Scale` would stand behind a box on the heap and could not be copied,
// while a console and the engine on its desk each hold a copy.
#[derive(Clone, Copy)]
pub(crate) enum ChosenScale {
    Ladder(Ladder),
    Departments(Departments),
}

#[derive(Clone, Copy)]
pub(crate) enum ChosenMeter {
    Card(Card),
    Digit(Digit),
}

// Makes the scale of a choice.
pub(crate) fn make_scale(choice: ScaleChoice) -> Result<ChosenScale, MakerFault>
    ensures made { ScaleMade choice result }
    ensures model { option_map scale_of (result_ok result) ≡ scale_made choice }
{
    match choice {
        ScaleChoice::Ladder(ranks) => Ok(ChosenScale::Ladder(Ladder::new(ranks)?)),
        ScaleChoice::Departments(count) => Ok(ChosenScale::Departments(Departments::new(count)?)),
    }
}

// Makes the meter of a choice.
pub(crate) fn make_meter(choice: MeterChoice) -> Result<ChosenMeter, MakerFault>
    ensures made { MeterMade choice result }
    ensures model { option_map meter_of (result_ok result) ≡ meter_made choice }
{
    match choice {
        MeterChoice::Card(charges) => {
            let mut card = Card::new();
            card.fill(&charges)?;
            Ok(ChosenMeter::Card(card))
        }
        MeterChoice::Digit => Ok(ChosenMeter::Digit(Digit)),
    }
}

impl Scale for ChosenScale {
    ghost meaning = { scale_of };

    fn known(&self, code: u16) -> bool {
        match self {
            ChosenScale::Ladder(ladder) => ladder.known(code),
            ChosenScale::Departments(departments) => departments.known(code),
        }
    }

    fn at_or_below(&self, low: u16, high: u16) -> bool {
        match self {
            ChosenScale::Ladder(ladder) => ladder.at_or_below(low, high),
            ChosenScale::Departments(departments) => departments.at_or_below(low, high),
        }
    }

    fn join(&self, one: u16, other: u16) -> u16 {
        match self {
            ChosenScale::Ladder(ladder) => ladder.join(one, other),
            ChosenScale::Departments(departments) => departments.join(one, other),
        }
    }

    fn floor(&self) -> u16 {
        match self {
            ChosenScale::Ladder(ladder) => ladder.floor(),
            ChosenScale::Departments(departments) => departments.floor(),
        }
    }

    fn laws(&self) {
        match self {
            ChosenScale::Ladder(ladder) => ladder.laws(),
            ChosenScale::Departments(departments) => departments.laws(),
        }
    }
}

impl Meter for ChosenMeter {
    // the larger of the two kinds' largest charges, which is a card's
    const LARGEST: u32 = Card::LARGEST;

    ghost meaning = { meter_of };

    fn charge(&self, code: u8, first: i32, second: i32) -> u32 {
        match self {
            ChosenMeter::Card(card) => card.charge(code, first, second),
            ChosenMeter::Digit(digit) => digit.charge(code, first, second),
        }
    }

    fn steady(&self, code: u8) -> bool {
        match self {
            ChosenMeter::Card(card) => card.steady(code),
            ChosenMeter::Digit(digit) => digit.steady(code),
        }
    }

    fn largest_charge(&self) -> u32 {
        match self {
            ChosenMeter::Card(card) => card.largest_charge(),
            ChosenMeter::Digit(digit) => digit.largest_charge(),
        }
    }

    fn laws(&self) {
        match self {
            ChosenMeter::Card(card) => card.laws(),
            ChosenMeter::Digit(digit) => digit.laws(),
        }
    }
}
