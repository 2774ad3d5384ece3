// Bytes in hexadecimal digits.
ghost use Rattle.spelling.specs.Hex.{bytes as bytes_spelled};
ghost use Rattle.spelling.specs.Reads.{Reads};
ghost use Rattle.std.specs.Char.{is_ascii_hexdigit};
ghost use Rattle.std.specs.List.{list_all};
ghost use Rattle.std.specs.Prelude.{◌≡◌, vec_items};

use crate::fault::SpellingFault;
use std::alloc::Global;

// Whether a word has nothing but hexadecimal digits.
fn has_digits_alone(word: &str) -> bool
    ensures { result ≡ list_all is_ascii_hexdigit word.now }
{
    word.as_bytes().iter().all(|byte| byte.is_ascii_hexdigit())
}

// The bytes that a word spells with two digits each; `-` stands for none.
pub fn read_bytes(heap: Global, word: &str) -> Result<Vec<u8>, SpellingFault>
    ensures { Reads vec_items (bytes_spelled word.now) result }
{
    match word {
        "-" => Ok(Vec::new(heap)),
        "" => Err(SpellingFault::Malformed),
        // Asked first: `decode` takes its memory before it looks at the digits, and a word that spells nothing needs none.
        other if !has_digits_alone(other) => Err(SpellingFault::Malformed),
        digits => Ok(hex::decode(heap, digits)?),
    }
}
