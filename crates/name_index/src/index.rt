// An index of names by product: which numbers it holds, and where.
ghost use Rattle.std.specs.Prelude.{◌≡◌, ℕ, ◌+◌, ◌-◌, ◌<◌, ◌≤◌, [], ◌∷◌, length, Some, OnOk, OnErr, vec_capacity, slice_get, Contains};
ghost use Rattle.name_index.specs.Elements.{SameElements};
ghost use Rattle.name_index.specs.Table.{Kept, find_kept, IsLive, kept_at};
ghost use Rattle.name_index.specs.Index.{times_held, pairs, AddsName, IsIndex};

use crate::{NameId, NameTable};
use cpe_values::Memory;
use list_pool::{ListName, MOST_SLOTS, Pool};
use std::alloc::Global;
use std::marker::Model;

/// A set of numbers of names. Each product has a list of its names' numbers; all lists are in one pool.
///
/// A product takes 20 bytes, and a held number 16.
#[derive(Drop)]
pub struct NameIndex {
    pub(crate) pool: Pool,
    // The list of each product number.
    pub(crate) heads: Vec<ListName>,
}

impl Model for NameIndex {
    ghost use Rattle.std.specs.Prelude.{length};
    ghost use Rattle.name_index.specs.Index.{Held, pairs, IsIndex};

    ghost Value = { Held };

    ghost view = { λ a. record { held = pairs a.pool.lists a.heads.items; spare = a.pool.spare; wide = length a.heads.items } };

    ghost invariant = { λ a. IsIndex a.pool.lists a.heads.items };
}

// Makes a list for each product number below `wide`.
fn make_lists(pool: &mut Pool, heads: &mut Vec<ListName>, wide: usize)
    requires index { IsIndex pool.old.lists heads.old.items }
    requires spare { wide ≤ length heads.old.items + pool.old.spare }
    requires room { wide ≤ vec_capacity heads.old }
    ensures index { IsIndex pool.new.lists heads.new.items }
    ensures held { pairs pool.new.lists heads.new.items ≡ pairs pool.old.lists heads.old.items }
    ensures wide { wide ≤ length heads.new.items }
    ensures longer { length heads.old.items ≤ length heads.new.items }
    ensures few { length heads.new.items ≤ length heads.old.items + (wide - length heads.old.items) }
    ensures spare { pool.new.spare + length heads.new.items ≡ pool.old.spare + length heads.old.items }
{
    while heads.len() < wide {
        match pool.make_list() {
            Some(list) => heads.push_reserved(list),
            None => unreachable!(),
        }
    }
}

// Makes room for `more` lists, and for `want` lists or values more.
fn make_room(
    pool: &mut Pool,
    heads: &mut Vec<ListName>,
    want: usize,
    more: usize,
) -> Result<(), Memory>
    ensures lists { pool.new.lists ≡ pool.old.lists }
    ensures heads { heads.new.items ≡ heads.old.items }
    ensures kept { pool.old.spare ≤ pool.new.spare }
    ensures spare { OnOk result (want + more ≤ pool.new.spare) }
    ensures room { OnOk result (length heads.old.items + more ≤ vec_capacity heads.new) }
    ensures err { OnErr result (pool.new ≡ pool.old) }
{
    if want > MOST_SLOTS || more > MOST_SLOTS || pool.size() > MOST_SLOTS {
        return Err(Memory);
    }
    if pool.size() + want + more > MOST_SLOTS {
        return Err(Memory);
    }
    heads.reserve(more)?;
    match pool.reserve(want + more) {
        Ok(()) => Ok(()),
        Err(_) => Err(Memory),
    }
}

// The list of a product number.
fn head_of(heads: &Vec<ListName>, product: u32) -> ListName
    requires { product < length heads.now.items }
    ensures { slice_get heads.now.items product ≡ Some result }
{
    heads[product as usize]
}

impl NameIndex {
    /// An empty index. Allocates: no.
    pub fn new(alloc: Global) -> NameIndex
        ensures held { result.held ≡ [] }
        ensures spare { result.spare ≡ 0 }
        ensures wide { result.wide ≡ 0 }
    {
        NameIndex {
            pool: Pool::new(alloc),
            heads: Vec::new(alloc),
        }
    }

    /// Makes room for `n` numbers more, and a list for each product of the table. Afterwards `spare` is at least `n`,
    /// and `wide` is above the product number of each live name. The held numbers are unchanged.
    ///
    /// # Errors
    ///
    /// [`Memory`] if memory ran out, or if products, held numbers and room together would pass 2^32 - 1; the index is
    /// then unchanged.
    pub fn reserve(&mut self, table: &NameTable, n: u32) -> Result<(), Memory>
        ensures held { self.new.held ≡ self.old.held }
        ensures spare { OnOk result (n ≤ self.new.spare) }
        ensures kept { self.old.spare ≤ self.new.spare }
        ensures wide { OnOk result ((id : ℕ) (k : Kept) → find_kept table.now id ≡ Some k → k.product < self.new.wide) }
        ensures wider { self.old.wide ≤ self.new.wide }
        ensures err { OnErr result (self.new ≡ self.old) }
    {
        let wide = table.product_count();
        let want = self.pool.spare().max(n as usize);
        let more = wide.saturating_sub(self.heads.len());
        make_room(&mut self.pool, &mut self.heads, want, more)?;
        make_lists(&mut self.pool, &mut self.heads, wide);
        Ok(())
    }

    /// Adds a live number that the index doesn't hold yet, and for which there is room. Allocates: no.
    pub fn add(&mut self, table: &NameTable, id: NameId)
        requires live { IsLive table.now id.0 }
        requires fresh { times_held self.old.held id.0 ≡ 0 }
        requires room { 1 ≤ self.old.spare }
        requires product { (kept_at table.now id.0).product < self.old.wide }
        ensures { AddsName self.old self.new id.0 (kept_at table.now id.0).product }
    {
        let product = table.product(id);
        let head = head_of(&self.heads, product.0);
        self.pool.push(head, id.0);
    }

    /// Removes a number that the index holds with the product number that the table keeps for it. Walks to the number
    /// in the list of its product. Allocates: no.
    pub fn drop_name(&mut self, table: &NameTable, id: NameId)
        requires held { Contains self.old.held (id.0, (kept_at table.now id.0).product) }
        requires live { IsLive table.now id.0 }
        ensures dropped { SameElements self.old.held ((id.0, (kept_at table.now id.0).product) ∷ self.new.held) }
        ensures spare { self.new.spare ≡ self.old.spare + 1 }
        ensures wide { self.new.wide ≡ self.old.wide }
    {
        let product = table.product(id);
        let head = head_of(&self.heads, product.0);
        let _ = self.pool.remove_value(head, id.0);
    }

    /// Law: no number is held twice.
    pub fn lawful(&self)
        ensures { (id : ℕ) → times_held self.now.held id ≤ 1 }
    {
        let _pool = &self.pool;
    }
}
