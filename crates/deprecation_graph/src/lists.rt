// Lists of numbers by index, stored in a pool.
ghost use Rattle.std.specs.Prelude.{◌≡◌, ◌+◌, ◌++◌, ◌∷◌, [], ◌<◌, ◌≤◌, length, slice_get, slice_set, OnOk, Contains};
ghost use Rattle.list_pool.specs.Pool.{IsLiveList};
ghost use Rattle.deprecation_graph.specs.Heads.{heads_values};

use list_pool::{CellName, ListName, MOST_SLOTS, Pool};
use std::alloc::{AllocError, Global};
use std::marker::Model;

/// Lists of numbers by index.
#[derive(Drop)]
pub(crate) struct Lists {
    pool: Pool,
    heads: Vec<ListName>,
}

impl Model for Lists {
    ghost use Rattle.std.specs.Prelude.{◌-◌, vec_len, vec_capacity};
    ghost use Rattle.deprecation_graph.specs.Indexed.{Indexed};

    ghost Value = { Indexed };

    ghost use Rattle.deprecation_graph.specs.Heads.{lists_at, AreHeads};

    ghost view = { λ l. record { lists = lists_at l.pool.lists l.heads.items; spare = l.pool.spare; room = vec_capacity l.heads - vec_len l.heads } };

    ghost invariant = { λ l. AreHeads l.pool.lists l.heads.items };
}

impl Lists {
    ghost use Rattle.deprecation_graph.specs.Indexed.{list_of_node, has_none, without_number, size_of};
    ghost use Rattle.deprecation_graph.specs.Mirror.{Loses};

    /// No lists.
    pub(crate) fn new(alloc: Global) -> Lists
        ensures lists { result.lists ≡ [] }
        ensures spare { result.spare ≡ 0 }
    {
        Lists {
            pool: Pool::new(alloc),
            heads: Vec::new(alloc),
        }
    }

    /// Makes room for this number of further lists, and for `all` further lists and numbers together.
    pub(crate) fn reserve(&mut self, lists: usize, all: usize) -> Result<(), AllocError>
        requires { size_of self.old.lists + all ≤ MOST_SLOTS }
        ensures lists { self.new.lists ≡ self.old.lists }
        ensures room { OnOk result (lists ≤ self.new.room) }
        ensures spare { OnOk result (all ≤ self.new.spare) }
        ensures room_kept { self.old.room ≤ self.new.room }
        ensures spare_kept { self.old.spare ≤ self.new.spare }
    {
        self.heads.reserve(lists)?;
        match self.pool.reserve(all) {
            Ok(()) => Ok(()),
            Err(_) => Err(AllocError),
        }
    }

    /// Adds an empty list at the end.
    pub(crate) fn add_list(&mut self)
        requires room { 1 ≤ self.old.room }
        requires spare { 1 ≤ self.old.spare }
        ensures lists { self.new.lists ≡ self.old.lists ++ [] ∷ [] }
        ensures spare { self.new.spare + 1 ≡ self.old.spare }
        ensures room { self.new.room + 1 ≡ self.old.room }
    {
        match self.pool.make_list() {
            Some(head) => self.heads.push_reserved(head),
            None => unreachable!(),
        }
    }

    /// Adds a number at the end of a list.
    pub(crate) fn push(&mut self, list: usize, value: u32)
        requires list { list < length self.old.lists }
        requires spare { 1 ≤ self.old.spare }
        ensures lists { self.new.lists ≡ slice_set self.old.lists list (list_of_node self.old.lists list ++ value ∷ []) }
        ensures spare { self.new.spare + 1 ≡ self.old.spare }
        ensures room { self.new.room ≡ self.old.room }
    {
        let head = self.heads[list];
        self.pool.push(head, value);
    }

    /// Removes the first occurrence of a number from a list that has it.
    pub(crate) fn remove(&mut self, list: usize, value: u32)
        requires list { list < length self.old.lists }
        requires there { Contains (list_of_node self.old.lists list) value }
        ensures lists { self.new.lists ≡ slice_set self.old.lists list (without_number value (list_of_node self.old.lists list)) }
        ensures spare { self.new.spare ≡ self.old.spare + 1 }
        ensures room { self.new.room ≡ self.old.room }
    {
        let head = self.heads[list];
        if !self.pool.remove_value(head, value) {
            unreachable!()
        }
    }

    /// Removes one occurrence of a number from a list that has it. If the given cell is in the list and has the number,
    /// this costs constant time. The first number of the list is then moved into the cell, and is returned. Otherwise
    /// the list is searched.
    pub(crate) fn remove_at(&mut self, list: usize, value: u32, cell: CellName) -> Option<u32>
        requires list { list < length self.old.lists }
        requires there { Contains (list_of_node self.old.lists list) value }
        ensures lists { Loses self.old.lists self.new.lists list value }
        ensures spare { self.new.spare ≡ self.old.spare + 1 }
        ensures room { self.new.room ≡ self.old.room }
    {
        let head = self.heads[list];
        if self.pool.holds(head, cell) {
            if self.pool.value(cell) == value {
                return Some(self.pool.remove_cell(head, cell));
            }
        }
        self.remove(list, value);
        None
    }

    /// The first cell of a list.
    pub(crate) fn first_cell(&self, list: usize) -> Option<CellName>
        requires { list < length self.now.lists }
    {
        self.pool.first(self.heads[list])
    }

    /// The last cell of a list.
    pub(crate) fn last_cell(&self, list: usize) -> Option<CellName>
        requires { list < length self.now.lists }
    {
        self.pool.last(self.heads[list])
    }

    /// The first cell of a list that has this number.
    pub(crate) fn cell_of(&self, list: usize, value: u32) -> Option<CellName> {
        match self.heads.get(list) {
            Some(head) => self.pool.find(*head, value),
            None => None,
        }
    }

    /// A bound above the numbers of all cells that are used or may be used without taking memory.
    pub(crate) fn most_cells(&self) -> usize {
        self.pool.lawful();
        self.pool.size() + self.pool.spare()
    }

    /// The first number of a list.
    pub(crate) fn first(&self, list: usize) -> Option<u32>
        requires { list < length self.now.lists }
        ensures { result ≡ slice_get (list_of_node self.now.lists list) 0 }
    {
        let head = self.heads[list];
        match self.pool.first(head) {
            Some(cell) => Some(self.pool.value(cell)),
            None => None,
        }
    }

    /// Whether a list is empty.
    pub(crate) fn is_empty(&self, list: usize) -> bool
        requires { list < length self.now.lists }
        ensures { result ≡ has_none self.now.lists list }
    {
        self.first(list).is_none()
    }

    /// The number of lists.
    pub(crate) fn len(&self) -> usize
        ensures { result ≡ length self.now.lists }
    {
        self.heads.len()
    }

    /// Copies a list into `into`.
    pub(crate) fn read(&self, list: usize, into: &mut Vec<u32>) -> Result<(), AllocError>
        requires { list < length self.now.lists }
        ensures { OnOk result (into.new.items ≡ list_of_node self.now.lists list) }
    {
        read_list(&self.pool, self.heads[list], into)
    }
}

// Copies a list of a pool into `into`.
fn read_list(pool: &Pool, head: ListName, into: &mut Vec<u32>) -> Result<(), AllocError>
    requires { IsLiveList pool.now.lists head.0 }
    ensures { OnOk result (into.new.items ≡ heads_values pool.now.lists head.0) }
{
    into.clear();
    let mut next = pool.first(head);
    while let Some(cell) = next {
        into.push(pool.value(cell))?;
        next = pool.next(cell);
    }
    Ok(())
}
