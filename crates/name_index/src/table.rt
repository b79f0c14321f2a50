// A table of names by number.
ghost use Rattle.std.specs.Prelude.{◌≡◌, ℕ, ◌+◌, ◌-◌, ◌<◌, ◌≤◌, false, not, [], length, set, cond, nat_lt, option_map, slice_get, None, Some, IsNone, IsSome, IfSome, IfOk, OnOk, OnErr, option_copied};
ghost use Rattle.std.specs.Prelude.{vec_len, vec_capacity};
ghost use Rattle.std.specs.List.{IsDistinct, list_any, position_or_len, swap_remove};
ghost use Rattle.indexmap.specs.IndexSet.{insert_key};
ghost use Rattle.cpe_name.specs.Prelude.{IsLower, same_name};
ghost use Rattle.cpe_values.specs.declared.value.Value.{Value};
ghost use Rattle.cpe_values.specs.Lower.{lower_value};
ghost use Rattle.name_index.specs.Table.{Kept, find_kept, IsLive, kept_at, HasName, HoldsName, Releases, IsNameTable};
ghost use Rattle.name_index.specs.Index.{WalksProducts};
ghost use Rattle.name_index.specs.Wanted.{walked};
ghost use Rattle.name_index.specs.Rows.{product_row_with, product_row_at, row_number_at, name_in_place, Grows, freed_rows, freed_row_numbers, product_count_at, HasProductNumber};
ghost use Rattle.name_index.specs.Listed.{product_at, Removes};
ghost use Rattle.name_index.specs.Near.{near_on, covers_product};

use crate::products::{Products, Side};
use crate::wanted::{ProductWalk, WantedProducts};
use cpe_name::{Attribute, Wfn};
use cpe_values::{Memory, Value};
use indexmap::IndexSet;
use std::alloc::Global;
use std::marker::Model;
use std::sync::ledger::Ledger;
use step_count::Steps;

/// The number of a name in a [`NameTable`].
#[derive(Clone, Copy, Debug, PartialEq, Eq, PartialOrd, Ord)]
pub struct NameId(pub u32);

/// The number of a product in a [`NameTable`].
#[derive(Clone, Copy, Debug, PartialEq, Eq, PartialOrd, Ord)]
pub struct ProductId(pub u32);

// The row of a number: its place, its holds, and the number of its product. A number without holds is free, and its
// place is after the places of the names.
#[derive(Clone, Copy)]
pub(crate) struct NameRow {
    pub(crate) place: u32,
    pub(crate) holds: u32,
    pub(crate) product: u32,
}

/// Different names in lower case by number, each with a count of its holds and the number of its product. Two names
/// have the same product number exactly if their products are equal.
///
/// A name is found by its hash. So [`hold`](NameTable::hold) and [`find`](NameTable::find) don't slow down as names are
/// added, except to find the place of a new product. Numbers of released names are used again. A product is removed
/// with the last of its names: its memory is released, and its number is used again.
#[derive(Drop)]
pub struct NameTable {
    alloc: Global,
    // `names`: the live names. `numbers`: the number of each place, and after the names' places the free numbers.
    // `rows`: the row of each number.
    names: IndexSet<Wfn>,
    numbers: Vec<u32>,
    rows: Vec<NameRow>,
    // `products`: the products of the live names. `counts`: how many names each product has, by product number.
    products: Products,
    counts: Vec<u32>,
}

impl Model for NameTable {
    ghost use Rattle.name_index.specs.Table.{Names};
    ghost use Rattle.name_index.specs.Rows.{table_of_rows, AreProductRows, AreProductCounts};

    ghost Value = { Names };

    ghost view = { λ t. table_of_rows t.names.keys t.rows.items };

    ghost invariant = { λ t. AreProductRows t.names.keys t.rows.items t.numbers.items t.products × AreProductCounts t.rows.items t.products t.counts.items };
}

// Makes room for the count of a product number. A missing count is 0.
fn make_count(counts: &mut Vec<u32>, number: usize) -> Result<(), Memory>
    ensures same { (p : ℕ) → product_count_at counts.new.items p ≡ product_count_at counts.old.items p }
    ensures room { OnOk result (number < length counts.new.items) }
{
    while counts.len() <= number {
        counts.push(0)?;
    }
    Ok(())
}

// The number of a product, which is added if it is new. Makes room for the count of its names.
fn product_number(
    alloc: Global,
    products: &mut Products,
    counts: &mut Vec<u32>,
    value: &Value,
) -> Result<u32, Memory>
    requires { lower_value value.now ≡ value.now }
    ensures same { (p : ℕ) → product_count_at counts.new.items p ≡ product_count_at counts.old.items p }
    ensures room { IfOk result (λ number. number < length counts.new.items) }
    ensures number { IfOk result (λ number. HasProductNumber products.old products.new number value.now) }
    ensures err { OnErr result (products.new ≡ products.old) }
{
    let next = products.len();
    make_count(counts, next)?;
    if let Some(number) = products.find(value) {
        return Ok(number);
    }
    let copied = value.copy(alloc)?;
    products.add(copied)
}

fn count_of(counts: &Vec<u32>, product: u32) -> u32
    requires { product < length counts.now.items }
    ensures { result ≡ product_count_at counts.now.items product }
{
    counts[product as usize]
}

fn set_count(counts: &mut Vec<u32>, product: u32, count: u32)
    requires { product < length counts.old.items }
    ensures { counts.new.items ≡ set counts.old.items product count }
{
    counts[product as usize] = count;
}

// Adds 1 to the number of a product's names.
fn raise_count(counts: &mut Vec<u32>, product: u32)
    requires inside { product < length counts.old.items }
    requires few { product_count_at counts.old.items product < 4294967295 }
    ensures { counts.new.items ≡ set counts.old.items product (product_count_at counts.old.items product + 1) }
{
    let count = count_of(counts, product);
    set_count(counts, product, count + 1);
}

// Subtracts 1 from the number of a product's names.
fn lower_count(counts: &mut Vec<u32>, product: u32)
    requires some { 0 < product_count_at counts.old.items product }
    requires inside { product < length counts.old.items }
    ensures { counts.new.items ≡ set counts.old.items product (product_count_at counts.old.items product - 1) }
{
    let count = count_of(counts, product);
    set_count(counts, product, count - 1);
}

// Removes a product if no name has it.
fn discard(products: &mut Products, counts: &Vec<u32>, product: u32)
    requires inside { product < length counts.now.items }
    requires there { IsSome (product_at products.old product) }
    ensures stays { 0 < product_count_at counts.now.items product → products.new ≡ products.old }
    ensures rest_goes { product_count_at counts.now.items product ≡ 0 → Removes products.old products.new product }
{
    if count_of(counts, product) == 0 {
        products.remove(product);
    }
}

fn number_of(numbers: &Vec<u32>, place: usize) -> u32
    requires { place < length numbers.now.items }
    ensures { result ≡ row_number_at numbers.now.items place }
{
    numbers[place]
}

fn row_of(rows: &Vec<NameRow>, number: u32) -> NameRow
    requires { number < length rows.now.items }
    ensures { result ≡ product_row_at rows.now.items number }
{
    rows[number as usize]
}

// Makes room for a number at the first place after the names.
fn reserve_number(
    numbers: &mut Vec<u32>,
    rows: &mut Vec<NameRow>,
    place: usize,
) -> Result<(), Memory>
    ensures numbers { numbers.new.items ≡ numbers.old.items }
    ensures rows { rows.new.items ≡ rows.old.items }
    ensures few { OnOk result (length rows.old.items ≤ place → place < 4294967295) }
    ensures numbers_room { OnOk result (length rows.old.items ≤ place → vec_len numbers.new < vec_capacity numbers.new) }
    ensures rows_room { OnOk result (length rows.old.items ≤ place → vec_len rows.new < vec_capacity rows.new) }
{
    if place < rows.len() {
        return Ok(());
    }
    if place >= u32::MAX as usize {
        return Err(Memory);
    }
    numbers.reserve(1)?;
    rows.reserve(1)?;
    Ok(())
}

// The product of the name at a place.
fn product_of(names: &IndexSet<Wfn>, place: usize) -> &Value
    requires { place < length names.now.keys }
    ensures { result.now ≡ (name_in_place names.now.keys place).product }
{
    match names.get_index(place) {
        Some(name) => name.get(Attribute::Product),
        None => unreachable!(),
    }
}

// Makes room for a number of the name at a place. Returns the number of the name's product.
fn make_room(
    alloc: Global,
    names: &IndexSet<Wfn>,
    place: usize,
    numbers: &mut Vec<u32>,
    rows: &mut Vec<NameRow>,
    products: &mut Products,
    counts: &mut Vec<u32>,
) -> Result<u32, Memory>
    requires place { place < length names.now.keys }
    requires lower { IsLower (name_in_place names.now.keys place) }
    ensures same { (p : ℕ) → product_count_at counts.new.items p ≡ product_count_at counts.old.items p }
    ensures room { IfOk result (λ number. number < length counts.new.items) }
    ensures product { IfOk result (λ number. HasProductNumber products.old products.new number (name_in_place names.now.keys place).product) }
    ensures err { OnErr result (products.new ≡ products.old) }
    ensures numbers { numbers.new.items ≡ numbers.old.items }
    ensures rows { rows.new.items ≡ rows.old.items }
    ensures few { OnOk result (length rows.old.items ≤ place → place < 4294967295) }
    ensures numbers_room { OnOk result (length rows.old.items ≤ place → vec_len numbers.new < vec_capacity numbers.new) }
    ensures rows_room { OnOk result (length rows.old.items ≤ place → vec_len rows.new < vec_capacity rows.new) }
{
    reserve_number(numbers, rows, place)?;
    product_number(alloc, products, counts, product_of(names, place))
}

// The number at the first place after the names, or a new number if none is free.
fn free_number(numbers: &mut Vec<u32>, rows: &mut Vec<NameRow>, place: usize) -> u32
    requires paired { length numbers.old.items ≡ length rows.old.items }
    requires within { place ≤ length rows.old.items }
    requires few { length rows.old.items ≤ place → place < 4294967295 }
    requires numbers_room { length rows.old.items ≤ place → vec_len numbers.old < vec_capacity numbers.old }
    requires rows_room { length rows.old.items ≤ place → vec_len rows.old < vec_capacity rows.old }
    ensures number { result ≡ row_number_at numbers.new.items place }
    ensures grown { Grows rows.old.items numbers.old.items place rows.new.items numbers.new.items }
{
    if place < rows.len() {
        return number_of(numbers, place);
    }
    let number = place as u32;
    numbers.push_reserved(number);
    rows.push_reserved(NameRow {
        place: number,
        holds: 0,
        product: 0,
    });
    number
}

// Adds 1 to the holds of a number.
fn raise(rows: &mut Vec<NameRow>, number: u32)
    requires known { number < length rows.old.items }
    requires few { (product_row_at rows.old.items number).holds < 4294967295 }
    ensures { rows.new.items ≡ set rows.old.items number (product_row_with (product_row_at rows.old.items number).place ((product_row_at rows.old.items number).holds + 1) (product_row_at rows.old.items number).product) }
{
    let row = row_of(rows, number);
    rows[number as usize] = NameRow {
        place: row.place,
        holds: row.holds + 1,
        product: row.product,
    };
}

// Writes the row of a number.
fn set_row(rows: &mut Vec<NameRow>, number: u32, row: NameRow)
    requires { number < length rows.old.items }
    ensures { rows.new.items ≡ set rows.old.items number row }
{
    rows[number as usize] = row;
}

// Appends a name, if it isn't in the list. Returns the place of the name, and whether the name is new.
fn insert_name(names: &mut IndexSet<Wfn>, name: Wfn) -> Result<(usize, bool), Memory>
    ensures place { IfOk result (λ put. put.0 ≡ position_or_len (same_name name) names.old.keys) }
    ensures new { IfOk result (λ put. put.1 ≡ not (list_any (same_name name) names.old.keys)) }
    ensures keys { OnOk result (names.new.keys ≡ insert_key same_name names.old.keys name) }
    ensures err { OnErr result (names.new.keys ≡ names.old.keys) }
    ensures absent { OnErr result (list_any (same_name name) names.old.keys ≡ false) }
    ensures unique { IsDistinct same_name names.new.keys }
{
    match names.insert_full(name) {
        Ok(put) => Ok(put),
        Err(refused) => Err(let_name_go(refused.value, Memory)),
    }
}

// Drops a name that wasn't added because memory ran out.
fn let_name_go(name: Wfn, memory: Memory) -> Memory {
    drop(name);
    memory
}

// Removes the name at a place, and moves the last name there.
fn take_name(names: &mut IndexSet<Wfn>, place: u32)
    requires { place < length names.old.keys }
    ensures keys { names.new.keys ≡ swap_remove names.old.keys place (name_in_place names.old.keys place) }
    ensures unique { IsDistinct same_name names.new.keys }
{
    let _ = names.swap_remove_index(place as usize);
}

// Frees a number. The number of the last name moves to the place of the freed number.
fn free_row(rows: &mut Vec<NameRow>, numbers: &mut Vec<u32>, number: u32, last: usize)
    requires number { number < length rows.old.items }
    requires place { (product_row_at rows.old.items number).place < length numbers.old.items }
    requires last { last < length numbers.old.items }
    requires moved { row_number_at numbers.old.items last < length rows.old.items }
    requires few { last < 4294967296 }
    ensures rows { rows.new.items ≡ freed_rows rows.old.items numbers.old.items number last }
    ensures numbers { numbers.new.items ≡ freed_row_numbers rows.old.items numbers.old.items number last }
{
    let place = row_of(rows, number).place;
    let moved = number_of(numbers, last);
    let row = row_of(rows, moved);
    numbers[place as usize] = moved;
    numbers[last] = number;
    set_row(
        rows,
        moved,
        NameRow {
            place,
            holds: row.holds,
            product: row.product,
        },
    );
    set_row(
        rows,
        number,
        NameRow {
            place: last as u32,
            holds: 0,
            product: 0,
        },
    );
}

// The name of a row, if the row has holds.
fn name_of<'a>(names: &'a IndexSet<Wfn>, row: &NameRow) -> Option<&'a Wfn>
    ensures { option_copied result ≡ cond (nat_lt 0 row.now.holds) (slice_get names.now.keys row.now.place) None }
{
    if row.holds > 0 {
        names.get_index(row.place as usize)
    } else {
        None
    }
}

impl NameTable {
    /// A table without names. Allocates: no.
    pub fn new(alloc: Global) -> NameTable
        ensures { result ≡ [] }
    {
        NameTable {
            alloc,
            names: IndexSet::new(alloc),
            numbers: Vec::new(alloc),
            rows: Vec::new(alloc),
            products: Products::new(alloc),
            counts: Vec::new(alloc),
        }
    }

    /// Reserves memory for `names` names more. Memory for their products and texts is taken later, by each name.
    ///
    /// # Errors
    /// Only that memory ran out.
    pub fn reserve(&mut self, names: u32) -> Result<(), Memory>
        ensures { self.new ≡ self.old }
    {
        self.names.reserve(names as usize)?;
        self.numbers.reserve(names as usize)?;
        self.rows.reserve(names as usize)?;
        Ok(())
    }

    /// The number of a name, or none exactly if no live number has the name.
    pub fn find(&self, name: &Wfn) -> Option<NameId>
        ensures found { IfSome result (λ id. HasName self.now id.0 name.now) }
        ensures none { IsNone result → (id : ℕ) → HasName self.now id name.now → ⊥ }
    {
        match self.names.get_index_of(name) {
            Some(place) => Some(NameId(number_of(&self.numbers, place))),
            None => None,
        }
    }

    /// The number of a name, which has one hold more then. If no live number has the name, the name is copied, and gets
    /// a number that wasn't live.
    ///
    /// # Errors
    /// Memory ran out, or no number below 2^32 - 1 is free; the table is then unchanged.
    pub fn hold(&mut self, name: &Wfn) -> Result<NameId, Memory>
        requires lower { IsLower name.now }
        requires few { (id : ℕ) → HasName self.old id name.now → (kept_at self.old id).holds < 4294967295 }
        ensures held { IfOk result (λ id. HoldsName self.old self.new id.0 name.now) }
        ensures new { OnErr result ((id : ℕ) → HasName self.old id name.now → ⊥) }
        ensures err { OnErr result (self.new ≡ self.old) }
    {
        if let Some(id) = self.find(name) {
            self.hold_again(id);
            return Ok(id);
        }
        let copied = name.copy(self.alloc)?;
        self.hold_moved(copied)
    }

    /// As [`hold`](NameTable::hold), but the name is moved instead of copied. If a live number has the name already,
    /// the moved name is dropped. The name is hashed once, new or not.
    ///
    /// # Errors
    /// Memory ran out, or no number below 2^32 - 1 is free; the table is then unchanged, and the name is dropped.
    pub fn hold_moved(&mut self, name: Wfn) -> Result<NameId, Memory>
        requires lower { IsLower name }
        requires few { (id : ℕ) → HasName self.old id name → (kept_at self.old id).holds < 4294967295 }
        ensures held { IfOk result (λ id. HoldsName self.old self.new id.0 name) }
        ensures new { OnErr result ((id : ℕ) → HasName self.old id name → ⊥) }
        ensures err { OnErr result (self.new ≡ self.old) }
    {
        let (place, is_new) = insert_name(&mut self.names, name)?;
        if !is_new {
            let id = NameId(number_of(&self.numbers, place));
            self.hold_again(id);
            return Ok(id);
        }
        let given = make_room(
            self.alloc,
            &self.names,
            place,
            &mut self.numbers,
            &mut self.rows,
            &mut self.products,
            &mut self.counts,
        );
        let product = match given {
            Ok(product) => product,
            Err(memory) => {
                self.names.truncate(place);
                return Err(memory);
            }
        };
        let number = free_number(&mut self.numbers, &mut self.rows, place);
        let row = NameRow {
            place: place as u32,
            holds: 1,
            product,
        };
        set_row(&mut self.rows, number, row);
        raise_count(&mut self.counts, product);
        Ok(NameId(number))
    }

    /// Adds a hold to the name of a live number. Allocates: no.
    pub fn hold_again(&mut self, id: NameId)
        requires live { IsLive self.old id.0 }
        requires few { (kept_at self.old id.0).holds < 4294967295 }
        ensures { HoldsName self.old self.new id.0 (kept_at self.old id.0).name }
    {
        raise(&mut self.rows, id.0);
    }

    /// Removes a hold of a number. After the last hold the number isn't live any more, and the name's memory is
    /// released. With the last name of a product, the product's memory is released, too. Allocates: no.
    pub fn release(&mut self, id: NameId)
        requires { IsLive self.old id.0 }
        ensures { Releases self.old self.new id.0 }
    {
        let row = row_of(&self.rows, id.0);
        if row.holds > 1 {
            let less = NameRow {
                place: row.place,
                holds: row.holds - 1,
                product: row.product,
            };
            set_row(&mut self.rows, id.0, less);
            return;
        }
        let last = self.names.len() - 1;
        take_name(&mut self.names, row.place);
        free_row(&mut self.rows, &mut self.numbers, id.0, last);
        lower_count(&mut self.counts, row.product);
        discard(&mut self.products, &self.counts, row.product);
    }

    /// The product number of the name of a live number.
    pub fn product(&self, id: NameId) -> ProductId
        requires { IsLive self.now id.0 }
        ensures { result.0 ≡ (kept_at self.now id.0).product }
    {
        let row = row_of(&self.rows, id.0);
        ProductId(row.product)
    }

    /// The name of a live number, counted as a look, which is one step. A search gets each name that it compares by
    /// this function.
    pub fn look<L: Ledger>(&self, id: NameId, steps: &mut Steps<L>) -> &Wfn
        requires { IsLive self.now id.0 }
        ensures name { result.now ≡ (kept_at self.now id.0).name }
        ensures step { steps.new ≡ steps.old + 1 }
    {
        steps.tick();
        self.name(id)
    }

    /// The name of a live number, without a look or a step. It is for callers that know the number; a search uses
    /// [`look`](NameTable::look).
    pub fn name(&self, id: NameId) -> &Wfn
        requires { IsLive self.now id.0 }
        ensures { result.now ≡ (kept_at self.now id.0).name }
    {
        let row = row_of(&self.rows, id.0);
        match self.names.get_index(row.place as usize) {
            Some(name) => name,
            None => unreachable!(),
        }
    }

    /// The name of a number, or none exactly if the number isn't live. Takes no step.
    pub fn get(&self, id: NameId) -> Option<&Wfn>
        ensures { option_copied result ≡ option_map (λ k. k.name) (find_kept self.now id.0) }
    {
        match self.rows.get(id.0 as usize) {
            Some(row) => name_of(&self.names, row),
            None => None,
        }
    }

    /// Law: all names of a table are in lower case and different. Two names have the same product number exactly if
    /// their products are equal.
    pub fn lawful(&self)
        ensures { IsNameTable self.now }
    {
        self.products.lawful();
    }

    // A number above the product number of each live name.
    pub(crate) fn product_count(&self) -> usize
        ensures { (id : ℕ) (k : Kept) → find_kept self.now id ≡ Some k → k.product < result }
    {
        self.products.len()
    }

    // The products that are near a product, which is the source or the target, by `side`.
    pub(crate) fn near_products<'a>(&'a self, asked: &'a Value, side: Side) -> ProductWalk<'a>
        requires { lower_value asked.now ≡ asked.now }
        ensures { WalksProducts self.now (near_on side asked.now) (walked result) }
    {
        ProductWalk {
            near: self.products.near(asked, side),
            wanted: WantedProducts {
                all: &self.products,
                asked,
                covered: false,
            },
        }
    }

    // The products that a product covers.
    pub(crate) fn covered_products<'a>(&'a self, asked: &'a Value) -> ProductWalk<'a>
        requires { lower_value asked.now ≡ asked.now }
        ensures { WalksProducts self.now (covers_product asked.now) (walked result) }
    {
        ProductWalk {
            near: self.products.near(asked, Side::Source),
            wanted: WantedProducts {
                all: &self.products,
                asked,
                covered: true,
            },
        }
    }
}
