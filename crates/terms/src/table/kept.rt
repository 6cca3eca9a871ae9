ghost use Rattle.std.specs.Prelude.{◌≡◌, ◌≤◌, [], ◌∷◌, ◌++◌, length, IfOk, IfErr, is_ok, if◌then◌else◌, nat_le, nat_lt};
ghost use Rattle.std.specs.List.{remove};
ghost use Rattle.terms.specs.Tables.{entries};

use super::Table;
use std::alloc::{AllocError, Global};

impl<T, const N: usize> Table<T, N> {
    // A table with no entries.
    pub fn new(heap: Global) -> Result<Table<T, N>, AllocError>
        ensures { IfOk result (λ t. entries t ≡ []) }
    {
        let items = Vec::with_capacity(heap, N)?;
        Ok(Table { items })
    }

    pub fn entries(&self) -> &[T]
        ensures value { result.now ≡ entries self.now }
        ensures few { length result.now ≤ N }
    {
        self.items.as_slice()
    }

    pub fn is_full(&self) -> bool
        ensures { result ≡ nat_le N (length (entries self.now)) }
    {
        self.items.len() >= N
    }
}

impl<T: Drop, const N: usize> Table<T, N> {
    // Adds an entry behind the last, or gives it back where there is no room for it.
    pub fn add(&mut self, entry: T) -> Result<(), T>
        ensures value { is_ok result ≡ nat_lt (length (entries self.old)) N }
        ensures after { entries self.new ≡ (if is_ok result then entries self.old ++ (entry ∷ []) else entries self.old) }
        ensures given_back { IfErr result (λ e. e ≡ entry) }
    {
        if self.is_full() {
            return Err(entry);
        }
        self.items.push_reserved(entry);
        Ok(())
    }

    // Takes out the entry at this place, if there is one.
    pub fn remove(&mut self, at: usize)
        ensures { entries self.new ≡ remove (entries self.old) at }
    {
        if at < self.items.len() {
            let _gone = self.items.remove(at);
        }
    }
}
