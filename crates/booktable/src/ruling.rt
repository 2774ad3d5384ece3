// Verdicts under the scale and the meter that a row chose.
ghost use Rattle.booktable.specs.Rows.{Metered, Ruled};

use crate::choice::{MeterChoice, ScaleChoice};
use flowcheck::verdict::judge;
use line::Verdict;
use meter::card::Card;
use meter::digit::Digit;
use scale::departments::Departments;
use scale::ladder::Ladder;
use scale::scale::Scale;
use trial::diamond::Diamond;
use trial::uneven::Uneven;

// The verdict under a scale and the chosen meter; a card that cannot be made is a refusal too.
fn rule_by<S: Scale>(scale: &S, meter: MeterChoice, bytes: &[u8]) -> Verdict
    ensures { Metered (S.Scale.meaning scale.now) meter bytes.now result }
{
    match meter {
        MeterChoice::Card(charges) => {
            let mut card = Card::new();
            card.fill(&charges)?;
            judge(scale, &card, bytes)
        }
        MeterChoice::Digit => judge(scale, &Digit, bytes),
        MeterChoice::Uneven(code) => judge(scale, &Uneven::new(code), bytes),
    }
}

// The verdict under the chosen scale and the chosen meter; what cannot be made is a refusal too.
pub(crate) fn rule_under(scale: ScaleChoice, meter: MeterChoice, bytes: &[u8]) -> Verdict
    ensures { Ruled scale meter bytes.now result }
{
    match scale {
        ScaleChoice::Ladder(ranks) => rule_by(&Ladder::new(ranks)?, meter, bytes),
        ScaleChoice::Departments(count) => rule_by(&Departments::new(count)?, meter, bytes),
        ScaleChoice::Diamond => rule_by(&Diamond, meter, bytes),
    }
}
