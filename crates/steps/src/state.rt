// The state between runs: the figures' amounts and the clock. Its calls are beside it.
ghost use Rattle.std.specs.Prelude.{◌≡◌, ◌≤◌, length};

// Only the first `count` amounts are figures'. A row of the largest size: nothing here allocates, and a state is copied,
// as an `ArrayVec` cannot be.
#[derive(Clone, Copy)]
pub struct State {
    pub(crate) amounts: [i32; 32],
    pub(crate) count: usize,
    pub(crate) clock: u64,
    ghost within: { (count ≤ 32) × (length amounts ≡ 32) },
}
