// The ladder, a scale whose levels are ranks in one line, numbered from the lowest.
ghost use Rattle.std.specs.Prelude.{◌≤◌};

mod rungs;

#[derive(Clone, Copy)]
pub struct Ladder {
    ranks: u16,
    ghost fits: { (1 ≤ ranks) × (ranks ≤ 256) },
}
