// What a row of the table may choose for its scale and for its meter. A script chooses from fewer kinds, and spells them
// in another way, so the choices are two types each.
use spelling::{SpellingFault, read_number};
use std::str::FromStr;

#[derive(Clone, Copy)]
pub(crate) enum ScaleChoice {
    Ladder(u32),
    Departments(u32),
    Diamond,
}

#[derive(Clone, Copy)]
pub(crate) enum MeterChoice {
    Card([u32; 12]),
    Digit,
    Uneven(u8),
}

impl FromStr for ScaleChoice {
    type Err = SpellingFault;

    // `ladder:N`, `departments:D` or `diamond`.
    fn from_str(word: &str) -> Result<ScaleChoice, SpellingFault> {
        if word == "diamond" {
            return Ok(ScaleChoice::Diamond);
        }
        match word.split_once(':') {
            Some(("ladder", ranks)) => Ok(ScaleChoice::Ladder(read_number(ranks)?)),
            Some(("departments", count)) => Ok(ScaleChoice::Departments(read_number(count)?)),
            _ => Err(SpellingFault::Malformed),
        }
    }
}

impl FromStr for MeterChoice {
    type Err = SpellingFault;

    // `card:C1,..,C12`, `digit` or `uneven:C`.
    fn from_str(word: &str) -> Result<MeterChoice, SpellingFault> {
        if word == "digit" {
            return Ok(MeterChoice::Digit);
        }
        match word.split_once(':') {
            Some(("card", charges)) => Ok(MeterChoice::Card(read_charges(charges)?)),
            Some(("uneven", code)) => Ok(MeterChoice::Uneven(read_code(code)?)),
            _ => Err(SpellingFault::Malformed),
        }
    }
}

// The twelve charges of a card, with commas between them. They are read as they are split off; `read_numbers` of a script
// takes words that stand in a slice.
fn read_charges(list: &str) -> Result<[u32; 12], SpellingFault> {
    let mut charges = [0; 12];
    let mut words = list.split(',');
    for charge in charges.iter_mut() {
        *charge = read_number(words.next().ok_or(SpellingFault::Malformed)?)?;
    }
    if words.next().is_some() {
        return Err(SpellingFault::Malformed);
    }
    Ok(charges)
}

// A code of 1 to 12.
fn read_code(word: &str) -> Result<u8, SpellingFault> {
    match read_number(word)? {
        code @ 1..=12 => Ok(code),
        _ => Err(SpellingFault::Malformed),
    }
}
