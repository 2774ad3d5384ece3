// The diamond, a scale of four levels of which two cannot be compared, and whose floor is not 0.
ghost use Rattle.trial.specs.Diamonds.{diamond, corner};
ghost use Rattle.std.specs.Prelude.{◌≡◌};

use scale::scale::Scale;

#[derive(Clone, Copy)]
pub struct Diamond;

// Whether a code is one of the four levels.
fn is_corner(code: u16) -> bool
    ensures { result ≡ corner code }
{
    matches!(code, 10..=13)
}

impl Scale for Diamond {
    ghost meaning = { λ _. diamond };

    fn known(&self, code: u16) -> bool {
        is_corner(code)
    }

    fn at_or_below(&self, low: u16, high: u16) -> bool {
        is_corner(low) && is_corner(high) && (low == 10 || high == 13 || low == high)
    }

    fn join(&self, one: u16, other: u16) -> u16 {
        if !is_corner(one) || !is_corner(other) {
            10
        } else if one == other || other == 10 {
            one
        } else if one == 10 {
            other
        } else {
            13
        }
    }

    fn floor(&self) -> u16 {
        10
    }

    fn laws(&self) {}
}
