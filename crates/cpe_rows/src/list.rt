// Lists, which contracts see as lists of items.
ghost use Rattle.std.specs.Prelude.{◌≡◌, [], ◌∷◌, ◌++◌, length, slice_get, IfOk, OnOk, OnErr, option_copied};

use cpe_values::Memory;
use std::alloc::Global;
use std::marker::Model;

/// A `Vec` that contracts see as the list of its items. Two lists are the same if their items are the same.
#[derive(Debug, Drop)]
pub struct List<T> {
    items: Vec<T>,
}

impl<T> Model for List<T> {
    ghost use Rattle.std.specs.Prelude.{List};
    ghost use Rattle.std.specs.Coded.{coded_list};

    ghost Value = { List T };

    ghost coded = { coded_list T.code };

    ghost view = { λ it. it.items.items };
}

impl<T> List<T> {
    /// The empty list. Allocates: no.
    pub fn new(alloc: Global) -> List<T>
        ensures { result ≡ [] }
    {
        List {
            items: Vec::new(alloc),
        }
    }

    /// The empty list, with memory for exactly `count` items. A list that grows by [`push`](List::push) reserves memory
    /// for at least four items. That is too much, because millions of lists are kept.
    ///
    /// # Errors
    /// Only if memory runs out.
    pub fn with_room(alloc: Global, count: usize) -> Result<List<T>, Memory>
        ensures { IfOk result (λ items. items ≡ []) }
    {
        match Vec::with_capacity(alloc, count) {
            Ok(items) => Ok(List { items }),
            Err(_) => Err(Memory),
        }
    }

    /// The list of a vector's items. Allocates: no.
    pub fn from_vec(items: Vec<T>) -> List<T>
        ensures { result ≡ items.items }
    {
        List { items }
    }

    /// The items as a vector. Allocates: no.
    pub fn into_vec(self) -> Vec<T>
        ensures { result.items ≡ self }
    {
        let List { items } = self;
        items
    }

    /// The items in their order.
    pub fn as_slice(&self) -> &[T]
        ensures { result.now ≡ self.now }
    {
        self.items.as_slice()
    }

    /// How many items there are.
    pub fn len(&self) -> usize
        ensures { result ≡ length self.now }
    {
        self.items.len()
    }

    /// The item at a place, counted from 0. There is none exactly if the place is the length or more.
    pub fn at(&self, k: usize) -> Option<&T>
        ensures { option_copied result ≡ slice_get self.now k }
    {
        self.items.get(k)
    }
}

// Reserves memory for exactly one item more, if the list has fewer than four items. So a short list has no unused
// memory, while `push` would reserve four places at once. A longer list grows by `push`, which doubles its memory.
// Otherwise each new item would move all others.
fn grow_if_short<T>(items: &mut Vec<T>) -> Result<(), Memory>
    ensures { items.new.items ≡ items.old.items }
{
    if items.len() >= 4 {
        return Ok(());
    }
    match items.reserve_exact(1) {
        Ok(()) => Ok(()),
        Err(_) => Err(Memory),
    }
}

impl<T: Drop> List<T> {
    /// Appends an item.
    ///
    /// # Errors
    /// Only if memory runs out. The list is then unchanged, and the item is dropped.
    pub fn push(&mut self, item: T) -> Result<(), Memory>
        ensures ok { OnOk result (self.new ≡ self.old ++ item ∷ []) }
        ensures err { OnErr result (self.new ≡ self.old) }
    {
        match self.items.push(item) {
            Ok(()) => Ok(()),
            Err(_) => Err(Memory),
        }
    }
    /// Appends an item, as [`push`](List::push) does. A list of up to four items has no unused memory, so this is for
    /// lists that are mostly short and are kept. The memory of a longer list doubles if it is full.
    ///
    /// # Errors
    /// Only if memory runs out. The list is then unchanged, and the item is dropped.
    pub fn push_close(&mut self, item: T) -> Result<(), Memory>
        ensures ok { OnOk result (self.new ≡ self.old ++ item ∷ []) }
        ensures err { OnErr result (self.new ≡ self.old) }
    {
        match grow_if_short(&mut self.items) {
            Ok(()) => self.push(item),
            Err(fault) => Err(fault),
        }
    }
}
