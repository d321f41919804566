ghost use Rattle.std.specs.Prelude.{◌≡◌, ◌≤◌, ◌==◌, [], length, nat_le, nat_lt, ⊤};

use std::alloc::AllocError;

// At most `N` items, in their order: the first `count` of an array, behind which filler stands.
// No call may allocate, so it is no `Vec`; and what holds it is `Copy`, which the kit's `ArrayVec`
// is not, nor a type whose view forgets a part, as that of an `impl Model` would forget the filler.
#[derive(Copy)]
pub struct FixedList<T, const N: usize> {
    items: [T; N],
    count: usize,
    ghost whole: { length items ≡ N },
    ghost within: { count ≤ N },
}

// Written out, since a generic type with ghost fields cannot derive it.
impl<T: Copy, const N: usize> Clone for FixedList<T, N> {
    ghost is_clone = { λ list copy. copy ≡ list };

    ghost is_infallible = { λ _. ⊤ };

    fn clone(&self) -> Result<Self, AllocError> {
        Ok(*self)
    }
}

impl<T: Copy, const N: usize> FixedList<T, N> {
    ghost use Rattle.fixed.specs.FixedList.{items_of, pushed};

    // No item; `filler` stands in the array.
    pub fn new(filler: T) -> Self
        ensures { items_of result ≡ [] }
    {
        FixedList {
            items: [filler; N],
            count: 0,
        }
    }

    // How many items there are.
    pub fn len(&self) -> usize
        ensures length { result ≡ length (items_of self.now) }
        ensures few { result ≤ N }
    {
        self.count
    }

    // Whether there is no item.
    pub fn is_empty(&self) -> bool
        ensures { result ≡ length (items_of self.now) == 0 }
    {
        self.len() == 0
    }

    // Whether there is no room for one more.
    pub fn is_full(&self) -> bool
        ensures { result ≡ nat_le N (length (items_of self.now)) }
    {
        self.len() == N
    }

    // The items, in their order.
    pub fn as_slice(&self) -> &[T]
        ensures items { result.now ≡ items_of self.now }
        ensures few { length result.now ≤ N }
    {
        &self.items[..self.count]
    }

    // Puts the item behind the others, and answers whether there was room; a full list stays as it was.
    pub fn push(&mut self, item: T) -> bool
        ensures room { result ≡ nat_lt (length (items_of self.old)) N }
        ensures items { items_of self.new ≡ pushed N item (items_of self.old) }
    {
        if self.is_full() {
            return false;
        }
        self.items[self.count] = item;
        self.count += 1;
        true
    }
}
