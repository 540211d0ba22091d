// Lists that contracts compare.
ghost use Rattle.std.specs.Prelude.{◌≡◌, ◌++◌, ◌∷◌, ◌<◌, [], length, take, IfOk, OnOk, OnErr};
ghost use Rattle.std.specs.List.{remove};

use dataset_tree::NoMemory;
use std::marker::Model;

/// A list that contracts see as one, whatever memory it has.
#[derive(Drop)]
pub struct Listed<T> {
    items: Vec<T>,
}

impl<T> Model for Listed<T> {
    ghost use Rattle.std.specs.Prelude.{List};

    ghost Value = { List T };

    ghost view = { λ list. list.items.items };
}

impl<T> Listed<T> {
    /// These items as a list.
    pub fn new(items: Vec<T>) -> Listed<T>
        ensures { result ≡ items.items }
    {
        Listed { items }
    }

    /// The items.
    pub fn as_slice(&self) -> &[T]
        ensures { result.now ≡ self.now }
    {
        self.items.as_slice()
    }
}

impl<T: Drop> Listed<T> {
    // How many items there are.
    pub(crate) fn count(&self) -> usize
        ensures { result ≡ length self.now }
    {
        self.items.len()
    }

    // Adds an item at the end.
    pub(crate) fn push(&mut self, item: T) -> Result<(), NoMemory>
        ensures added { OnOk result (self.new ≡ self.old ++ item ∷ []) }
        ensures err { OnErr result (self.new ≡ self.old) }
    {
        self.items.push(item)?;
        Ok(())
    }

    // Takes out the items behind the first ones, so many.
    pub(crate) fn truncate(&mut self, count: usize)
        ensures { self.new ≡ take count self.old }
    {
        self.items.truncate(count);
    }

    // Takes out the item at a place.
    pub(crate) fn remove(&mut self, at: usize)
        requires { at < length self.old }
        ensures { self.new ≡ remove self.old at }
    {
        self.items.remove(at);
    }
}

impl<T: Copy + Drop> Listed<T> {
    /// An equal list.
    pub fn copy(&self) -> Result<Listed<T>, NoMemory>
        ensures { IfOk result (λ list. list ≡ self.now) }
    {
        let items = Vec::from_slice(*self.items.allocator(), self.items.as_slice())?;
        Ok(Listed { items })
    }
}
