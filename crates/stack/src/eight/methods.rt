// Making a stack, pushing, popping and looking at the top.
ghost use Rattle.stack.specs.Stacks.{held, first, rest, pushed, push_answer};
ghost use Rattle.std.specs.Prelude.{◌≡◌, [], drop, length, Some, None};

use crate::eight::Stack;

impl<T: Copy> Stack<T> {
    // An empty stack; `filler` stands in the unused places.
    pub fn new(filler: T) -> Self
        ensures { held result ≡ [] }
    {
        Stack {
            items: [filler; 8],
            count: 0,
        }
    }

    // How many items there are.
    #[tactic(auto, using(crate::proofs::Tops::height))]
    pub fn height(&self) -> usize
        ensures { result ≡ length (held self.now) }
    {
        self.count
    }

    // One item more; a full stack stays as it is, and the item comes back.
    #[tactic(auto, using(crate::proofs::Tops::height, crate::proofs::Tops::more))]
    pub fn push(&mut self, item: T) -> Result<(), T>
        ensures answer { result ≡ push_answer item (held self.old) }
        ensures after { held self.new ≡ pushed item (held self.old) }
    {
        if self.count < 8 {
            self.items[self.count] = item;
            self.count += 1;
            Ok(())
        } else {
            Err(item)
        }
    }

    // Takes the top item off.
    #[tactic(auto, using(crate::proofs::Tops::fewer, crate::proofs::Tops::less, crate::proofs::Tops::height))]
    pub fn pop(&mut self) -> Option<T>
        ensures value { result ≡ first (held self.old) }
        ensures after { held self.new ≡ rest (held self.old) }
    {
        if self.count == 0 {
            return None;
        }
        self.count -= 1;
        Some(self.items[self.count])
    }

    // The item that has so many above it.
    fn under(&self, above: usize) -> Option<T>
        ensures { result ≡ first (drop above (held self.now)) }
    {
        if self.count <= above {
            return None;
        }
        Some(self.items[self.count - 1 - above])
    }

    // The top item, which stays.
    pub fn top(&self) -> Option<T>
        ensures { result ≡ first (held self.now) }
    {
        self.under(0)
    }

    // The item under the top one, which stays.
    #[tactic(auto, using(crate::proofs::Tops::drop_one))]
    pub fn second(&self) -> Option<T>
        ensures { result ≡ first (rest (held self.now)) }
    {
        self.under(1)
    }

    // Leaves no item.
    pub fn clear(&mut self)
        ensures { held self.new ≡ [] }
    {
        self.count = 0;
    }
}
