ghost use Rattle.std.specs.Prelude.{◌≡◌, ◌≤◌, [], length, take};
ghost use Rattle.few.specs.Held.{held, Pushed, Popped};

use super::super::full::Full;
use super::Few;

impl<T: Copy, const N: usize> Few<T, N> {
    /// Nothing yet; `fill` stands in the free places.
    pub fn new(fill: T) -> Few<T, N>
        ensures { held result ≡ [] }
    {
        Few {
            items: [fill; N],
            count: 0,
        }
    }

    /// How many values there are.
    pub fn len(&self) -> usize
        ensures count { result ≡ length (held self.now) }
        ensures few { result ≤ N }
    {
        self.as_slice().len()
    }

    /// The values, in the order in which they came.
    pub fn as_slice(&self) -> &[T]
        ensures { result.now ≡ held self.now }
    {
        &self.items[..self.count]
    }

    /// Adds a value at the end; or changes nothing, where every place is taken.
    pub fn push(&mut self, x: T) -> Result<(), Full>
        ensures { Pushed N (held self.old) x result (held self.new) }
    {
        if self.count == N {
            return Err(Full);
        }
        self.items[self.count] = x;
        self.count += 1;
        Ok(())
    }

    /// Takes the last value, if there is one.
    pub fn pop(&mut self) -> Option<T>
        ensures { Popped (held self.old) result (held self.new) }
    {
        if self.count == 0 {
            return None;
        }
        self.count -= 1;
        Some(self.items[self.count])
    }

    /// Keeps the first `count` values, if there are more.
    pub fn truncate(&mut self, count: usize)
        ensures { held self.new ≡ take count (held self.old) }
    {
        if count < self.count {
            self.count = count;
        }
    }
}
