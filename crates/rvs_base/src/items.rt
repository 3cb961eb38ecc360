// Lists.
ghost use Rattle.std.specs.Prelude.{◌≡◌, ◌<◌, [], ◌∷◌, ◌++◌, length, slice_set, OnOk, OnErr};

use crate::NoMemory;
use std::alloc::Global;
use std::marker::Model;

/// A growing list. Contracts see it as the list of its items.
pub struct Items<T> {
    list: Vec<T>,
}

impl<T: Drop> Drop for Items<T> {
    fn drop(self) {
        let Items { list } = self;
        drop(list);
    }
}

/// A list of bytes, which needn't be UTF-8.
pub type Bytes = Items<u8>;

impl<T> Model for Items<T> {
    ghost use Rattle.std.specs.Prelude.{List};

    ghost Value = { List T };

    ghost view = { λ xs. xs.list.items };
}

impl<T> Items<T> {
    /// The empty list. It takes no memory.
    pub fn new(alloc: Global) -> Self
        ensures { result ≡ [] }
    {
        Items {
            list: Vec::new(alloc),
        }
    }

    /// The items as a slice.
    pub fn as_slice(&self) -> &[T]
        ensures { result.now ≡ self.now }
    {
        self.list.as_slice()
    }

    /// The items as a vector, which the caller may then write to. Nothing is copied.
    pub fn into_vec(self) -> Vec<T>
        ensures { result.items ≡ self }
    {
        let Items { list } = self;
        list
    }

    /// The allocator from which the list takes memory.
    pub fn allocator(&self) -> Global {
        *self.list.allocator()
    }
}

impl<T: Drop> Items<T> {
    /// Adds an item at the end.
    ///
    /// # Errors
    ///
    /// [`NoMemory`] where the list can't grow; it is then as before.
    pub fn push(&mut self, item: T) -> Result<(), NoMemory>
        ensures added { OnOk result (self.new ≡ self.old ++ item ∷ []) }
        ensures unchanged { OnErr result (self.new ≡ self.old) }
    {
        self.list.push(item)?;
        Ok(())
    }

    /// Puts an item in the place of another, counted from 0.
    pub fn set(&mut self, place: usize, item: T)
        requires { place < length self.old }
        ensures { self.new ≡ slice_set self.old place item }
    {
        self.list[place] = item;
    }
}

impl<T> From<Vec<T>> for Items<T> {
    ghost from_gives = { λ v xs. xs ≡ v.items };

    fn from(list: Vec<T>) -> Self {
        Items { list }
    }
}
