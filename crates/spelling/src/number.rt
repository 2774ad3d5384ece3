// Numbers in decimal digits, one and several.
ghost use Rattle.spelling.specs.Laws.{integer_reads, natural_reads};
ghost use Rattle.spelling.specs.Numerals.{integer, natural, naturals, texts};
ghost use Rattle.spelling.specs.Reads.{Numbered, Reads};
ghost use Rattle.spelling.specs.declared.fault.SpellingFault.{SpellingFault};
ghost use Rattle.spelling.specs.declared.fault.SpellingFault.TheVariants.{Malformed};
ghost use Rattle.std.specs.Prelude.{◌≡◌, ℕ, IfErr, List, Option, Result};
ghost use Rattle.std.specs.Str.Parse.{ExplainsSignedError, ExplainsUnsignedError, HasSignedDigitsIfOk, HasUnsignedDigitsIfOk};

use crate::fault::SpellingFault;
use std::str::FromStr;

// A number that fits its type. Only a signed number has a sign, and that is a minus.
pub trait Number: FromStr {
    ghost spelled: { List ℕ → Option Self };

    // Parsing takes what spells a number, and else nothing that has no plus in front.
    ghost reads: { (word : List ℕ) (answer : Result Self SpellingFault) → Numbered Self.from_str_gives word answer → Reads (λ n. n) (spelled word) answer };
}

impl Number for u8 {
    ghost spelled = { natural 8 };

    ghost reads = { λ word answer numbered. natural_reads 8 word (ExplainsUnsignedError 10) HasUnsignedDigitsIfOk answer numbered };
}

impl Number for u16 {
    ghost spelled = { natural 16 };

    ghost reads = { λ word answer numbered. natural_reads 16 word (ExplainsUnsignedError 10) HasUnsignedDigitsIfOk answer numbered };
}

impl Number for u32 {
    ghost spelled = { natural 32 };

    ghost reads = { λ word answer numbered. natural_reads 32 word (ExplainsUnsignedError 10) HasUnsignedDigitsIfOk answer numbered };
}

impl Number for i32 {
    ghost spelled = { integer };

    ghost reads = { λ word answer numbered. integer_reads word (ExplainsSignedError 10) HasSignedDigitsIfOk answer numbered };
}

// The number that a word spells.
pub fn read_number<N: Number>(word: &str) -> Result<N, SpellingFault>
where
    N::Err: Drop,
    ensures read { Reads (λ n. n) (N.spelled word.now) result }
    ensures fault { IfErr result (λ fault. fault ≡ Malformed) }
{
    if word.starts_with('+') {
        return Err(SpellingFault::Malformed);
    }
    word.parse().map_err(|_| SpellingFault::Malformed)
}

// The numbers that words spell, one each.
pub fn read_numbers<const COUNT: usize>(words: &[&str]) -> Result<[u32; COUNT], SpellingFault>
    ensures { Reads (λ numbers. numbers) (naturals COUNT (texts words.now)) result }
{
    if words.len() != COUNT {
        return Err(SpellingFault::Malformed);
    }
    let mut numbers = [0; COUNT];
    // By place: with `iter_mut` and `zip` the proof does not close, which knows no number that was written so.
    for (place, word) in words.iter().enumerate() {
        numbers[place] = read_number(*word)?;
    }
    Ok(numbers)
}
