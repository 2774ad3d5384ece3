// The stack's own record; its calls are beside it.
ghost use Rattle.std.specs.Prelude.{◌≡◌, ◌≤◌, length};

mod methods;

// The bottom item is the array's first, and only the first `count` places count. An array of the largest size, since
// nothing here allocates; `ArrayVec` does not either, but asks for blank items, which it writes where an item goes: that
// would ask more of callers.
// The size is no parameter, since every stack of the repository has the same eight places.
#[derive(Drop)]
pub struct Stack<T> {
    items: [T; 8],
    count: usize,
    ghost within: { (count ≤ 8) × (length items ≡ 8) },
}
