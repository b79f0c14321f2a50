// A walk over the held names whose products are near a product, or are covered by it.
ghost use Rattle.std.specs.Prelude.{◌≡◌, ◌+◌, ℕ, Bool, true, [], Some, map, filter, slice_get, count_by, IfOk, IfSome, IsNone, OnOk};
ghost use Rattle.list_pool.specs.Pool.{IsLiveList};
ghost use Rattle.list_pool.specs.declared.ListName.{ListName};
ghost use Rattle.std.specs.List.Sorted.{IsStrictlyIncreasing};
ghost use Rattle.std.specs.Iterator.{YieldsFirst, item_count};
ghost use Rattle.cpe_relation.specs.Prelude.{covers, IsLower, IsOrder};
ghost use Rattle.name_index.specs.Elements.{SameElements};
ghost use Rattle.step_count.specs.Within.{StepsWithin};
ghost use Rattle.cpe_values.specs.declared.value.Value.{Value};
ghost use Rattle.name_index.specs.declared.products.Side.TheVariants as side;
ghost use Rattle.name_index.specs.Table.{Names, kept_at};
ghost use Rattle.name_index.specs.Index.{ids, FitsTable, WalksProducts, is_near, is_product_covered, is_covered, posting};
ghost use Rattle.name_index.specs.Wanted.{is_wanted_name, walked};

use crate::index::NameIndex;
use crate::products::Side;
use crate::walk::NearProducts;
use crate::wanted::{ProductWalk, WantedProducts};
use crate::{NameId, NameTable};
use cpe_name::{Attribute, Wfn};
use cpe_relation::{covers_in_order, deciding_order};
use cpe_values::{Memory, Value};
use list_pool::{CellName, ListName, Pool};
use std::alloc::Global;
use std::marker::Model;
use std::sync::ledger::Ledger;
use step_count::Steps;

/// The numbers of the held names whose products are near or covered, each once. Contracts see the numbers that are
/// left. A step doesn't allocate.
#[derive(Drop)]
pub struct Near<'a> {
    pool: &'a Pool,
    heads: &'a [ListName],
    // `products`: the products still to visit. `wanted`: which of them are wanted. `list`: the list that is read now.
    // `left`: how many of its values are left. `cell`: the cell of the first value that is left.
    products: NearProducts<'a>,
    wanted: WantedProducts<'a>,
    list: ListName,
    left: usize,
    cell: CellName,
}

impl<'a> Model for Near<'a> {
    ghost use Rattle.std.specs.Prelude.{List};
    ghost use Rattle.name_index.specs.declared.table.NameId.{NameId};
    ghost use Rattle.name_index.specs.Index.{walk_left, IsWalkAt};
    ghost use Rattle.name_index.specs.Wanted.{wanted_of};

    ghost Value = { List NameId };

    ghost view = { λ a. walk_left a.pool.now.lists a.heads.now a.list.0 a.left (wanted_of a.wanted a.products) };

    ghost invariant = { λ a. IsWalkAt a.pool.now.lists a.heads.now a.list.0 a.left a.cell.0 };
}

// Whether a name covers another. The attributes are compared in the given order.
fn is_covering(order: &[Attribute], name: &Wfn, other: &Wfn) -> bool
    requires { IsOrder order.now }
    ensures { result ≡ covers name.now other.now }
{
    covers_in_order(order, name, other)
}

fn product_of(name: &Wfn) -> &Value
    ensures { result.now ≡ name.now.product }
{
    name.get(Attribute::Product)
}

fn head_of(heads: &[ListName], product: u32) -> Option<ListName>
    ensures { result ≡ slice_get heads.now product }
{
    match heads.get(product as usize) {
        Some(head) => Some(*head),
        None => None,
    }
}

// The list of a product, if the product is wanted and its list isn't empty. If the list is empty, no products are
// compared.
fn list_of(
    pool: &Pool,
    heads: &[ListName],
    wanted: &WantedProducts,
    product: u32,
) -> Option<ListName>
    requires { (p : ℕ) (h : ListName) → slice_get heads.now p ≡ Some h → IsLiveList pool.now.lists h.0 }
    ensures some { IfSome result (λ h. (slice_get heads.now product ≡ Some h) × (is_wanted_name wanted.now product ≡ true)) }
    ensures none { IsNone result → is_wanted_name wanted.now product ≡ true → posting pool.now.lists heads.now product ≡ [] }
{
    let head = head_of(heads, product)?;
    if pool.len(head) == 0 || !wanted.wants(product) {
        return None;
    }
    Some(head)
}

impl<'a> Iterator for Near<'a> {
    type Item = NameId;

    ghost next_gives = { YieldsFirst (λ rest. rest) };

    ghost remaining = { item_count (λ rest. rest) };

    fn next(&mut self) -> Option<NameId> {
        while self.left == 0 {
            let Some(product) = self.products.next() else {
                return None;
            };
            if let Some(head) = list_of(self.pool, self.heads, &self.wanted, product) {
                self.list = head;
                self.left = self.pool.len(head);
                if let Some(cell) = self.pool.first(head) {
                    self.cell = cell;
                }
            }
        }
        let value = self.pool.value(self.cell);
        self.left -= 1;
        if let Some(cell) = self.pool.next(self.cell) {
            self.cell = cell;
        }
        Some(NameId(value))
    }
}

impl NameIndex {
    // A walk over the held names whose products pass a test.
    fn walk<'a>(&'a self, products: ProductWalk<'a>) -> Near<'a>
        ensures { (names : Names) (test : Value → Bool) → FitsTable self.now.held names → WalksProducts names test (walked products.entry) → SameElements (filter (λ id. test (kept_at names id.0).name.product) (ids self.now.held)) result }
    {
        Near {
            pool: &self.pool,
            heads: &self.heads,
            products: products.near,
            wanted: products.wanted,
            list: ListName(0),
            left: 0,
            cell: CellName(0),
        }
    }

    /// A walk over the held names by their products. With `Source` it visits the names to whose products the given
    /// name's product is near. With `Target` it visits the names whose products are near the given name's product.
    /// Takes no step. Allocates: no.
    pub fn near<'a>(&'a self, table: &'a NameTable, name: &'a Wfn, side: Side) -> Near<'a>
        requires fits { FitsTable self.now.held table.now }
        requires lower { IsLower name.now }
        ensures { SameElements (filter (is_near table.now side name.now.product) (ids self.now.held)) result }
    {
        self.walk(table.near_products(product_of(name), side))
    }

    /// A walk over the held names whose products the given name's product covers. It compares the given product with
    /// each near product that has held names. If the product isn't covered, the walk skips all its names. Takes no
    /// step. Allocates: no.
    pub fn with_covered_product<'a>(&'a self, table: &'a NameTable, name: &'a Wfn) -> Near<'a>
        requires fits { FitsTable self.now.held table.now }
        requires lower { IsLower name.now }
        ensures { SameElements (filter (is_product_covered table.now name.now.product) (ids self.now.held)) result }
    {
        self.walk(table.covered_products(product_of(name)))
    }

    /// The held names that the given name covers, in rising order of their numbers. Looks once at each held name whose
    /// product the given name's product covers, and at no other name. The given name's product is near each of these
    /// products.
    ///
    /// # Errors
    ///
    /// Only that memory ran out. The bound on steps holds then, too.
    pub fn covered_by<L: Ledger>(
        &self,
        alloc: Global,
        table: &NameTable,
        name: &Wfn,
        steps: &mut Steps<L>,
    ) -> Result<Vec<NameId>, Memory>
        requires fits { FitsTable self.now.held table.now }
        requires lower { IsLower name.now }
        ensures covered { IfOk result (λ v. SameElements (filter (is_covered table.now name.now) (ids self.now.held)) v.items) }
        ensures rising { IfOk result (λ v. IsStrictlyIncreasing (map (λ id. id.0) v.items)) }
        ensures steps { StepsWithin steps.old steps.new (count_by (is_near table.now side.Source name.now.product) (ids self.now.held)) }
        ensures looked { OnOk result (steps.new ≡ steps.old + count_by (is_product_covered table.now name.now.product) (ids self.now.held)) }
    {
        self.lawful();
        let order = deciding_order(alloc, name)?;
        let mut found = Vec::new(alloc);
        for id in self.with_covered_product(table, name) {
            let other = table.look(id, steps);
            if is_covering(&order, name, other) {
                found.push(id)?;
            }
        }
        found.sort_by_key(|id| id.0)?;
        Ok(found)
    }
}
