// The card, a meter with a fixed charge for each instruction code.
ghost use Rattle.std.specs.Prelude.{◌≡◌, ℕ, ◌<◌, ◌≤◌, length, slice_index};

mod filling;

#[derive(Clone, Copy)]
pub struct Card {
    charges: [u32; 12],
    ghost fits: { (length charges ≡ 12) × ((k : ℕ) → k < 12 → slice_index charges k ≤ 1000) },
}
