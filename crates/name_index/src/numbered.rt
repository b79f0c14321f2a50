// Different products by number. A product keeps its number until it is removed.
ghost use Rattle.std.specs.Prelude.{◌≡◌, ℕ, ◌<◌, ◌≤◌, false, [], ◌∷◌, ◌++◌, length, get_or, Some, None, IsNone, IsSome, IfSome, IfOk, OnOk, OnErr, option_copied};
ghost use Rattle.std.specs.Prelude.{vec_len, vec_capacity};
ghost use Rattle.std.specs.List.{IsDistinct, swap_remove, filter};
ghost use Rattle.cpe_values.specs.declared.value.Value.{Value};
ghost use Rattle.cpe_values.specs.declared.value.Value.TheVariants as value;
ghost use Rattle.cpe_values.specs.Same.{same_value};
ghost use Rattle.name_index.specs.Elements.{SameElements};
ghost use Rattle.name_index.specs.Listed.{product_at, product_value_at, live, AddsProduct, Removes};
ghost use Rattle.name_index.specs.Placed.{number_at, Grows, freed_products, freed_places};

use cpe_values::{Memory, Value};
use indexmap::IndexSet;
use std::alloc::Global;
use std::marker::Model;

// Different products by number. Contracts see the product of each number.
#[derive(Drop)]
pub(crate) struct NumberedProducts {
    // `values`: the products. `numbers`: the number of each place, and after the products' places the free numbers.
    values: IndexSet<Value>,
    numbers: Vec<u32>,
    // The place of each number.
    places: Vec<u32>,
}

impl Model for NumberedProducts {
    ghost use Rattle.name_index.specs.Listed.{ProductList};
    ghost use Rattle.name_index.specs.Placed.{by_number, ArePlacedProducts};

    ghost Value = { ProductList };

    ghost view = { λ p. by_number p.values.keys p.places.items };

    ghost invariant = { λ p. ArePlacedProducts p.values.keys p.numbers.items p.places.items };
}

fn number_of(numbers: &Vec<u32>, place: usize) -> u32
    requires { place < length numbers.now.items }
    ensures { result ≡ number_at numbers.now.items place }
{
    numbers[place]
}

// The number of a place, as a slice of one number.
fn number_alone(numbers: &Vec<u32>, place: usize) -> &[u32]
    requires { place < length numbers.now.items }
    ensures { result.now ≡ number_at numbers.now.items place ∷ [] }
{
    &numbers[place..place + 1]
}

// Makes room for a number at the first place after the products.
fn reserve_number(numbers: &mut Vec<u32>, places: &mut Vec<u32>, place: usize) -> Result<(), Memory>
    ensures numbers { numbers.new.items ≡ numbers.old.items }
    ensures places { places.new.items ≡ places.old.items }
    ensures few { OnOk result (length places.old.items ≤ place → place < 4294967295) }
    ensures numbers_room { OnOk result (length places.old.items ≤ place → vec_len numbers.new < vec_capacity numbers.new) }
    ensures places_room { OnOk result (length places.old.items ≤ place → vec_len places.new < vec_capacity places.new) }
{
    if place < places.len() {
        return Ok(());
    }
    if place >= u32::MAX as usize {
        return Err(Memory);
    }
    numbers.reserve(1)?;
    places.reserve(1)?;
    Ok(())
}

// The number at the first place after the products, or a new number if none is free.
fn free_number(numbers: &mut Vec<u32>, places: &mut Vec<u32>, place: usize) -> u32
    requires paired { length numbers.old.items ≡ length places.old.items }
    requires within { place ≤ length places.old.items }
    requires few { length places.old.items ≤ place → place < 4294967295 }
    requires numbers_room { length places.old.items ≤ place → vec_len numbers.old < vec_capacity numbers.old }
    requires places_room { length places.old.items ≤ place → vec_len places.old < vec_capacity places.old }
    ensures number { result ≡ number_at numbers.new.items place }
    ensures grown { Grows numbers.old.items places.old.items place numbers.new.items places.new.items }
{
    if place < places.len() {
        return number_of(numbers, place);
    }
    let number = place as u32;
    numbers.push_reserved(number);
    places.push_reserved(number);
    number
}

// Removes the product at a place, and moves the last product there.
fn take_value(values: &mut IndexSet<Value>, place: u32)
    requires { place < length values.old.keys }
    ensures keys { values.new.keys ≡ swap_remove values.old.keys place (get_or values.old.keys place value.Any) }
    ensures unique { IsDistinct same_value values.new.keys }
{
    let _ = values.swap_remove_index(place as usize);
}

// Frees a number. The number of the last product moves to the place of the freed number.
fn move_last(numbers: &mut Vec<u32>, places: &mut Vec<u32>, number: u32, last: usize)
    requires number { number < length places.old.items }
    requires place { number_at places.old.items number < length numbers.old.items }
    requires last { last < length numbers.old.items }
    requires moved { number_at numbers.old.items last < length places.old.items }
    requires few { last < 4294967296 }
    ensures numbers { numbers.new.items ≡ freed_products numbers.old.items places.old.items number last }
    ensures places { places.new.items ≡ freed_places numbers.old.items places.old.items number last }
{
    let place = number_of(places, number as usize);
    let moved = number_of(numbers, last);
    numbers[place as usize] = moved;
    numbers[last] = number;
    places[moved as usize] = place;
    places[number as usize] = last as u32;
}

impl NumberedProducts {
    // No products. Allocates: no.
    pub(crate) fn new(alloc: Global) -> NumberedProducts
        ensures { result ≡ [] }
    {
        NumberedProducts {
            values: IndexSet::new(alloc),
            numbers: Vec::new(alloc),
            places: Vec::new(alloc),
        }
    }

    // How many numbers there are, including the free numbers.
    pub(crate) fn len(&self) -> usize
        ensures { result ≡ length self.now }
    {
        self.places.len()
    }

    // The product of a number, if the number has one.
    pub(crate) fn get(&self, number: u32) -> Option<&Value>
        ensures { option_copied result ≡ product_at self.now number }
    {
        if number as usize >= self.places.len() {
            return None;
        }
        let place = number_of(&self.places, number as usize);
        self.values.get_index(place as usize)
    }

    // Law: the products are different.
    pub(crate) fn lawful(&self)
        ensures { (m n : ℕ) (v : Value) → product_at self.now m ≡ Some v → product_at self.now n ≡ Some v → m ≡ n }
    {
        let _ = &self.values;
    }

    // The number of a product, which is found by its hash, if a number has this product.
    pub(crate) fn find(&self, value: &Value) -> Option<u32>
        ensures found { IfSome result (λ number. product_at self.now number ≡ Some value.now) }
        ensures none { IsNone result → (number : ℕ) → product_at self.now number ≡ Some value.now → ⊥ }
    {
        match self.values.get_index_of(value) {
            Some(place) => Some(number_of(&self.numbers, place)),
            None => None,
        }
    }

    // The number of a product as a slice of one number, found by its hash. The slice is empty if no number has the
    // product.
    pub(crate) fn find_alone(&self, value: &Value) -> &[u32]
        ensures { SameElements (filter (λ n. same_value value.now (product_value_at self.now n)) (live self.now)) result.now }
    {
        match self.values.get_index_of(value) {
            Some(place) => number_alone(&self.numbers, place),
            None => &[],
        }
    }

    // Adds a new product. Returns its number, which was free.
    pub(crate) fn add(&mut self, value: Value) -> Result<u32, Memory>
        requires fresh { (number : ℕ) → product_at self.old number ≡ Some value → ⊥ }
        ensures added { IfOk result (λ number. AddsProduct self.old self.new number value) }
        ensures few { IfOk result (λ number. number ≤ length self.old) }
        ensures err { OnErr result (self.new ≡ self.old) }
    {
        let place = self.values.len();
        reserve_number(&mut self.numbers, &mut self.places, place)?;
        self.values.insert(value)?;
        Ok(free_number(&mut self.numbers, &mut self.places, place))
    }

    // Removes the product of a number, which is free then. Allocates: no.
    pub(crate) fn remove(&mut self, number: u32)
        requires { IsSome (product_at self.old number) }
        ensures { Removes self.old self.new number }
    {
        let place = number_of(&self.places, number as usize);
        let last = self.values.len() - 1;
        take_value(&mut self.values, place);
        move_last(&mut self.numbers, &mut self.places, number, last);
    }
}
