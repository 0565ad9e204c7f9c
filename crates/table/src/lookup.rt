ghost use Rattle.std.specs.Prelude.{◌≡◌, Bool, Decides};
ghost use Rattle.table.specs.Lookup.{Finds, Gets};

/// What can be looked up by a key.
pub trait Entry {
    type Key: PartialEq + Drop;

    /// The key that an entry has.
    ghost keyed: { Self → Self.Key };

    fn key(&self) -> Self::Key
        ensures { result ≡ keyed self.now };

    /// `==` tells whether two keys are the same.
    ghost agrees: { (x y : Self.Key) (b : Bool) → (b ≡ Self.Key.PartialEq.eq x y) → Decides b (x ≡ y) };
}

/// The place of the first entry with the key, if one has it.
pub fn find<E: Entry>(entries: &[E], key: &E::Key) -> Option<usize>
    ensures { Finds (λ e. E.keyed e ≡ key.now) entries.now result }
{
    entries.iter().position(|entry| entry.key() == *key)
}

/// The first entry with the key, if one has it.
pub fn first<E: Entry + Copy>(entries: &[E], key: &E::Key) -> Option<E>
    ensures { Gets (λ e. E.keyed e ≡ key.now) entries.now result }
{
    find(entries, key).map(|at| entries[at])
}
