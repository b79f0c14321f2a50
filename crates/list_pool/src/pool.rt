// A pool of lists: its public functions.
ghost use Rattle.std.specs.Prelude.{◌≡◌, ◌+◌, ◌≤◌, ◌↔◌, [], length, IsNone, IsSome, IsTrue, IsOk, OnOk, OnErr, IfSome, None, Some, option_map};
ghost use Rattle.std.specs.Bool.{OnTrue, OnFalse};
ghost use Rattle.list_pool.specs.Pool.{list_at, IsLiveList, pool_size, live_count, Updates, Pushes, find_list, cell_at, IsCell, AreApart, NextIs, ValueIs, IsCellOf, WritesCell, TakesOut, last_cell_of, cell_with, cell_value_at, has_value, without_first_cell};

use crate::store::{Cell, END, Head, PoolSlot, Store};
use out_of_memory::Memory;
use std::alloc::Global;
use std::marker::Model;

/// The limit of the lists and cells that are used or reserved, together.
pub const MOST_SLOTS: usize = 4_294_967_295;

/// The name of a list.
#[derive(Clone, Copy, Debug, PartialEq, Eq, PartialOrd, Ord)]
pub struct ListName(pub u32);

/// The name of a cell.
#[derive(Clone, Copy, Debug, PartialEq, Eq, PartialOrd, Ord)]
pub struct CellName(pub u32);

/// Many lists of numbers. Two lists never share a cell. A function that changes a list leaves all other lists
/// unchanged.
#[derive(Drop)]
pub struct Pool {
    store: Store,
}

impl Model for Pool {
    ghost use Rattle.std.specs.Prelude.{◌+◌};
    ghost use Rattle.list_pool.specs.Pool.{Lists};

    ghost Value = { Lists };

    ghost use Rattle.list_pool.specs.Store.{lists_of, IsPool};

    ghost view = { λ p. record { lists = lists_of p.store.items.items; spare = p.store.free_len + p.store.room } };

    ghost invariant = { λ p. IsPool p.store };
}

impl Pool {
    /// A pool without lists and without room. Allocates: no.
    pub fn new(alloc: Global) -> Pool
        ensures lists { result.lists ≡ [] }
        ensures spare { result.spare ≡ 0 }
    {
        Pool {
            store: Store {
                items: Vec::new(alloc),
                free: END,
                free_len: 0,
                room: 0,
            },
        }
    }

    /// Makes room for `n` lists and cells together, in addition to those that exist. Afterwards `spare` is at least
    /// `n`, and at least what it was before. The lists are unchanged. The time is constant, except if the slots are
    /// moved: then each slot is copied.
    ///
    /// # Errors
    ///
    /// [`Memory`] if memory ran out, and `spare` was less than `n`; the pool is then unchanged.
    pub fn reserve(&mut self, n: usize) -> Result<(), Memory>
        requires { pool_size self.old.lists + n ≤ MOST_SLOTS }
        ensures spare { OnOk result (n ≤ self.new.spare) }
        ensures succeeds { n ≤ self.old.spare → IsOk result }
        ensures kept { self.old.spare ≤ self.new.spare }
        ensures lists { self.new.lists ≡ self.old.lists }
        ensures err { OnErr result (self.new ≡ self.old) }
    {
        let have = self.spare();
        if have >= n {
            return Ok(());
        }
        let more = n - self.store.free_len as usize;
        self.store.items.reserve(more)?;
        self.store.room = more as u32;
        Ok(())
    }

    /// How many slots the live lists take: one for each list, and one for each of its values. Constant time.
    pub fn size(&self) -> usize
        ensures { result ≡ pool_size self.now.lists }
    {
        self.store.items.len() - self.store.free_len as usize
    }

    /// How many lists and cells can be added without memory. Constant time.
    pub fn spare(&self) -> usize
        ensures { result ≡ self.now.spare }
    {
        self.store.free_len as usize + self.store.room as usize
    }

    /// Makes an empty list, and returns its name, which no live list had. `spare` is one less then. Constant time.
    /// Allocates: no.
    ///
    /// `None` exactly if [`MOST_SLOTS`] lists are live. The contract requires that `spare` is at least 1, so this never
    /// happens.
    pub fn make_list(&mut self) -> Option<ListName>
        requires { 1 ≤ self.old.spare }
        ensures left { IsSome result }
        ensures full { IsNone result ↔ (live_count self.old.lists ≡ MOST_SLOTS) }
        ensures fresh { IfSome result (λ list. find_list self.old.lists list.0 ≡ None) }
        ensures made { IfSome result (λ list. Updates self.old.lists self.new.lists list.0 (Some [])) }
        ensures spare { self.new.spare + 1 ≡ self.old.spare }
    {
        let at = self.store.take(PoolSlot::Head(Head {
            first: END,
            last: END,
            len: 0,
        }));
        Some(ListName(at))
    }

    /// Appends a value to a list, in a cell that was in no list. All other cells are unchanged. `spare` is one less
    /// then. Constant time. Allocates: no.
    pub fn push(&mut self, list: ListName, value: u32)
        requires live { IsLiveList self.old.lists list.0 }
        requires room { 1 ≤ self.old.spare }
        ensures pushed { Pushes self.old.lists self.new.lists list.0 value }
        ensures spare { self.new.spare + 1 ≡ self.old.spare }
    {
        let head = self.store.head(list.0);
        let at = self.store.take(PoolSlot::Cell(Cell {
            list: list.0,
            value,
            next: END,
        }));
        if head.len == 0 {
            let only = Head {
                first: at,
                last: at,
                len: 1,
            };
            self.store.put(list.0, PoolSlot::Head(only));
        } else {
            let last = self.store.cell(head.last);
            let linked = Cell {
                list: last.list,
                value: last.value,
                next: at,
            };
            let longer = Head {
                first: head.first,
                last: at,
                len: head.len + 1,
            };
            self.store.put(head.last, PoolSlot::Cell(linked));
            self.store.put(list.0, PoolSlot::Head(longer));
        }
    }

    /// Whether the list is live: it was made, and not dropped since. Constant time.
    pub fn live(&self, list: ListName) -> bool
        ensures { IsTrue result ↔ IsLiveList self.now.lists list.0 }
    {
        matches!(
            self.store.items.get(list.0 as usize),
            Some(PoolSlot::Head(_))
        )
    }

    /// The length of the list. Constant time.
    pub fn len(&self, list: ListName) -> usize
        requires { IsLiveList self.now.lists list.0 }
        ensures { result ≡ length (list_at self.now.lists list.0) }
    {
        let head = self.store.head(list.0);
        head.len as usize
    }

    /// The first cell of the list; `None` exactly if the list is empty. Constant time.
    pub fn first(&self, list: ListName) -> Option<CellName>
        requires { IsLiveList self.now.lists list.0 }
        ensures { option_map (λ c. c.0) result ≡ cell_at self.now.lists list.0 0 }
    {
        let head = self.store.head(list.0);
        if head.len == 0 {
            None
        } else {
            Some(CellName(head.first))
        }
    }

    /// The last cell of the list; `None` exactly if the list is empty. Constant time.
    pub fn last(&self, list: ListName) -> Option<CellName>
        requires { IsLiveList self.now.lists list.0 }
        ensures { option_map (λ c. c.0) result ≡ last_cell_of self.now.lists list.0 }
    {
        let head = self.store.head(list.0);
        if head.len == 0 {
            None
        } else {
            Some(CellName(head.last))
        }
    }

    /// The first cell of the list with this value; `None` exactly if no cell has the value. Walks the list up to that
    /// cell.
    pub fn find(&self, list: ListName, value: u32) -> Option<CellName>
        requires { IsLiveList self.now.lists list.0 }
        ensures { option_map (λ c. c.0) result ≡ cell_with value (list_at self.now.lists list.0) }
    {
        let head = self.store.head(list.0);
        match self.store.find(list.0, head, value) {
            Some(place) => Some(CellName(place.at)),
            None => None,
        }
    }

    /// Whether the cell is in the list. Constant time.
    pub fn holds(&self, list: ListName, cell: CellName) -> bool
        ensures { IsTrue result ↔ IsCellOf self.now.lists list.0 cell.0 }
    {
        self.store.has_cell(cell.0, list.0)
    }

    /// The cell after a cell in its list; `None` exactly if the cell is the last. Constant time.
    pub fn next(&self, cell: CellName) -> Option<CellName>
        requires { IsCell self.now.lists cell.0 }
        ensures { NextIs self.now.lists cell.0 (option_map (λ c. c.0) result) }
    {
        let row = self.store.cell(cell.0);
        if row.next == END {
            None
        } else {
            Some(CellName(row.next))
        }
    }

    /// The value of a cell. Constant time.
    pub fn value(&self, cell: CellName) -> u32
        requires { IsCell self.now.lists cell.0 }
        ensures { ValueIs self.now.lists cell.0 result }
    {
        let row = self.store.cell(cell.0);
        row.value
    }

    /// Removes the first cell with this value from the list. All other cells are unchanged, and `spare` is one more.
    /// Returns `false` exactly if no cell has the value; the pool is then unchanged. Walks the list up to that cell.
    pub fn remove_value(&mut self, list: ListName, value: u32) -> bool
        requires { IsLiveList self.old.lists list.0 }
        ensures found { result ≡ has_value value (list_at self.old.lists list.0) }
        ensures removed { OnTrue result (Updates self.old.lists self.new.lists list.0 (Some (without_first_cell value (list_at self.old.lists list.0)))) }
        ensures spare { OnTrue result (self.new.spare ≡ self.old.spare + 1) }
        ensures absent { OnFalse result (self.new ≡ self.old) }
    {
        let head = self.store.head(list.0);
        match self.store.find(list.0, head, value) {
            Some(place) => {
                self.store.unlink(list.0, value, place);
                true
            }
            None => false,
        }
    }

    /// Removes the value of a cell from the list in constant time. The first value of the list moves into this cell,
    /// and the first cell is removed. `spare` is one more then. Returns the value that was moved.
    pub fn remove_cell(&mut self, list: ListName, cell: CellName) -> u32
        requires { IsCellOf self.old.lists list.0 cell.0 }
        ensures removed { TakesOut self.old.lists self.new.lists list.0 cell.0 }
        ensures moved { cell_value_at self.old.lists list.0 0 ≡ Some result }
        ensures spare { self.new.spare ≡ self.old.spare + 1 }
    {
        let Some(first) = self.first(list) else {
            unreachable!()
        };
        let value = self.value(first);
        self.set_value(cell, value);
        self.remove_value(list, value);
        value
    }

    // Overwrites the value of a cell.
    fn set_value(&mut self, cell: CellName, value: u32)
        requires { IsCell self.old.lists cell.0 }
        ensures written { WritesCell self.old.lists self.new.lists cell.0 value }
        ensures spare { self.new.spare ≡ self.old.spare }
    {
        let row = self.store.cell(cell.0);
        self.store.put(
            cell.0,
            PoolSlot::Cell(Cell {
                list: row.list,
                value,
                next: row.next,
            }),
        );
    }

    /// Drops the list, which isn't live any more. `spare` grows by one and by the list's length. Walks the list.
    pub fn drop_list(&mut self, list: ListName)
        requires { IsLiveList self.old.lists list.0 }
        ensures dropped { Updates self.old.lists self.new.lists list.0 None }
        ensures spare { self.new.spare ≡ self.old.spare + 1 + length (list_at self.old.lists list.0) }
    {
        while let Some(cell) = self.first(list) {
            let value = self.value(cell);
            self.remove_value(list, value);
        }
        self.store.give(list.0);
    }

    /// Law: no cell is at two positions of lists. The live lists, their lengths and `spare` add up to at most
    /// [`MOST_SLOTS`].
    pub fn lawful(&self)
        ensures apart { AreApart self.now.lists }
        ensures few { pool_size self.now.lists + self.now.spare ≤ MOST_SLOTS }
    {
        let _store = &self.store;
    }
}
