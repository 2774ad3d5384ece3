// The trait of scales. A scale is a join-semilattice of security levels with a least element:
// codes of 16 bits, an order on those that are known, the least level above any two, and a floor.
ghost use Rattle.scale.specs.Scales.{ScaleModel, Lawful};
ghost use Rattle.std.specs.Prelude.{◌≡◌};

pub trait Scale {
    // What the scale answers to every question.
    ghost meaning: { Self → ScaleModel };

    // Whether the code is a level of this scale.
    fn known(&self, code: u16) -> bool
        ensures { result ≡ (meaning self.now).known code };

    // Whether both are levels and the first is at or below the second.
    fn at_or_below(&self, low: u16, high: u16) -> bool
        ensures { result ≡ (meaning self.now).below low high };

    // The least level at or above both; the floor if either is no level.
    fn join(&self, one: u16, other: u16) -> u16
        ensures { result ≡ (meaning self.now).join one other };

    // The level at or below all others.
    fn floor(&self) -> u16
        ensures { result ≡ (meaning self.now).floor };

    // Changes nothing: a call brings the laws of this scale into its caller's proof.
    fn laws(&self)
        ensures { Lawful (meaning self.now) };
}
