// The products of names, by number, with both orders.
ghost use Rattle.std.specs.Prelude.{◌≡◌, ◌≤◌, ℕ, [], length, Some, IsNone, IsSome, IfSome, IfOk, OnErr};
ghost use Rattle.cpe_values.specs.declared.value.Value.{Value};
ghost use Rattle.cpe_values.specs.Lower.{lower_value};
ghost use Rattle.name_index.specs.Listed.{product_at, product_value_at, AddsProduct, Removes};

use crate::blocks::Blocks;
use crate::keys::End;
use crate::numbered::NumberedProducts;
use crate::order::{put_number, take_number};
use cpe_values::{Memory, Value};
use std::alloc::Global;
use std::marker::Model;

/// Whether the asked product is the source of the relation, or its target.
#[derive(Clone, Copy, Debug, PartialEq, Eq)]
pub enum Side {
    /// The asked product is the source.
    Source,
    /// The asked product is the target.
    Target,
}

// Different products in lower case by number. Contracts see the product of each number.
//
// A product keeps its number until it is removed. The number is free then, and a product that is added later may get
// it. A product with a short body takes about 85 bytes.
#[derive(Drop)]
pub(crate) struct Products {
    pub(crate) values: NumberedProducts,
    // `fronts`: the numbers, sorted by shape and by body from the front. `backs`: the numbers, sorted by shape and by
    // body from the back.
    pub(crate) fronts: Blocks,
    pub(crate) backs: Blocks,
}

impl Model for Products {
    ghost use Rattle.name_index.specs.Listed.{ProductList};
    ghost use Rattle.name_index.specs.Near.{AreOrders};

    ghost Value = { ProductList };

    ghost view = { λ p. p.values };

    ghost invariant = { λ p. AreOrders p.values p.fronts.items p.backs.items };
}

impl Products {
    // No products. Allocates: no.
    pub(crate) fn new(alloc: Global) -> Products
        ensures { result ≡ [] }
    {
        Products {
            values: NumberedProducts::new(alloc),
            fronts: Blocks::new(alloc),
            backs: Blocks::new(alloc),
        }
    }

    // How many numbers there are, including the free numbers. The number of each product is below this result.
    pub(crate) fn len(&self) -> usize
        ensures { result ≡ length self.now }
    {
        self.values.len()
    }

    // Law: all products are in lower case, and different.
    pub(crate) fn lawful(&self)
        ensures lower { (number : ℕ) → lower_value (product_value_at self.now number) ≡ product_value_at self.now number }
        ensures different { (m n : ℕ) (v : Value) → product_at self.now m ≡ Some v → product_at self.now n ≡ Some v → m ≡ n }
    {
        self.values.lawful();
    }

    // The number of a product, or none exactly if no number has this product. The product is found by its hash.
    pub(crate) fn find(&self, value: &Value) -> Option<u32>
        ensures found { IfSome result (λ number. product_at self.now number ≡ Some value.now) }
        ensures none { IsNone result → (number : ℕ) → product_at self.now number ≡ Some value.now → ⊥ }
    {
        self.values.find(value)
    }

    // Adds a new product, and returns its number: one that was free, or the next number. Fails if memory ran out, or if
    // no number below 2^32 - 1 is free; the products are then unchanged.
    pub(crate) fn add(&mut self, value: Value) -> Result<u32, Memory>
        requires fresh { (number : ℕ) → product_at self.old number ≡ Some value → ⊥ }
        requires lower { lower_value value ≡ value }
        ensures added { IfOk result (λ number. AddsProduct self.old self.new number value) }
        ensures few { IfOk result (λ number. number ≤ length self.old) }
        ensures err { OnErr result (self.new ≡ self.old) }
    {
        self.fronts.reserve()?;
        self.backs.reserve()?;
        let number = self.values.add(value)?;
        put_number(&self.values, &mut self.fronts, End::Front, number);
        put_number(&self.values, &mut self.backs, End::Back, number);
        Ok(number)
    }

    // Removes the product of a number, and releases its memory. The number is free then; the other products keep their
    // numbers. The number is searched in both orders, among the products with the same shape and body. Allocates: no.
    pub(crate) fn remove(&mut self, number: u32)
        requires { IsSome (product_at self.old number) }
        ensures { Removes self.old self.new number }
    {
        take_number(&self.values, &mut self.fronts, End::Front, number);
        take_number(&self.values, &mut self.backs, End::Back, number);
        self.values.remove(number);
    }
}
