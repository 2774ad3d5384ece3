// Numbers at places of a list of bytes, big-endian.
ghost use Rattle.std.specs.Prelude.{◌≡◌, ℕ, List, ◌+◌, ◌*◌, ◌<◌, ◌≤◌, length, take};
ghost use Rattle.book.specs.Reads.{fields, long, word};

// A number of so many bytes.
pub(crate) trait Field: Copy + Default {
    ghost WIDTH: { ℕ };

    const WIDTH: usize;

    // The number that stands at a place of bytes.
    ghost stands: { List ℕ → ℕ → Self };

    fn read(bytes: &[u8], at: usize) -> Self
        requires { at + WIDTH ≤ length bytes.now }
        ensures { result ≡ stands bytes.now at };
}

impl Field for u16 {
    ghost WIDTH = { 2 };

    const WIDTH: usize = 2;

    ghost stands = { word };

    fn read(bytes: &[u8], at: usize) -> Self {
        u16::from_be_bytes([bytes[at], bytes[at + 1]])
    }
}

impl Field for i32 {
    ghost WIDTH = { 4 };

    const WIDTH: usize = 4;

    ghost stands = { long };

    fn read(bytes: &[u8], at: usize) -> Self {
        i32::from_be_bytes([bytes[at], bytes[at + 1], bytes[at + 2], bytes[at + 3]])
    }
}

// The numbers from a place on, in the first `count` places of the row.
// The row is an array of the largest size: nothing here allocates.
pub(crate) fn row<T: Field>(bytes: &[u8], at: usize, count: usize) -> [T; 32]
    requires { (count ≤ 32) × (at + T.WIDTH * count ≤ length bytes.now) }
    ensures long { length result ≡ 32 }
    ensures items { take count result ≡ fields T.WIDTH T.stands count at bytes.now }
{
    let mut row = [T::default(); 32];
    for (index, number) in row[..count].iter_mut().enumerate() {
        *number = T::read(bytes, at + T::WIDTH * index);
    }
    row
}
