// Numbers in the order of their products.
ghost use Rattle.std.specs.Prelude.{◌≡◌, ◌||◌, ◌∷◌, true, filter, Contains, IsPermutation};
ghost use Rattle.name_index.specs.Keys.{shape_of, body_of, in_run, is_below, Rises};
ghost use Rattle.name_index.specs.Listed.{product_value_at};
ghost use Rattle.name_index.specs.Elements.{SameElements};

use crate::blocks::Blocks;
use crate::keys::{End, Shape, body_of, compare_keys, has_body, rank, shape_of};
use crate::numbered::NumberedProducts;
use crate::piece::BlockPiece;
use crate::search::Test;
use std::cmp::Ordering;

// The products of one shape that have `body` at one end of their body. If `whole`, only the products whose body equals
// `body`.
#[derive(Clone, Copy)]
pub(crate) struct Run<'a> {
    pub(crate) end: End,
    pub(crate) shape: Shape,
    pub(crate) body: &'a [u8],
    pub(crate) whole: bool,
}

// The shape and the body of a number's product.
fn key_of(values: &NumberedProducts, number: u32) -> (Shape, &[u8])
    ensures shape { result.0 ≡ shape_of (product_value_at values.now number) }
    ensures body { result.1.now ≡ body_of (product_value_at values.now number) }
{
    match values.get(number) {
        Some(value) => (shape_of(value), body_of(value)),
        None => (Shape::Any, &[]),
    }
}

// Whether a number's product is before the run.
fn is_below(values: &NumberedProducts, run: Run, number: u32) -> bool
    ensures { result ≡ is_below run.entry.end run.entry.shape run.entry.body.now (product_value_at values.now number) }
{
    let (shape, body) = key_of(values, number);
    compare_keys(run.end, shape, body, run.shape, run.body) == Ordering::Less
}

fn is_in(values: &NumberedProducts, run: Run, number: u32) -> bool
    ensures { result ≡ in_run run.entry.end run.entry.shape run.entry.body.now run.entry.whole (product_value_at values.now number) }
{
    let (shape, body) = key_of(values, number);
    rank(run.shape) == rank(shape) && has_body(run.whole, run.end, run.body, body)
}

fn is_within(values: &NumberedProducts, run: Run, number: u32) -> bool
    ensures { result ≡ (is_below run.entry.end run.entry.shape run.entry.body.now (product_value_at values.now number) || in_run run.entry.end run.entry.shape run.entry.body.now run.entry.whole (product_value_at values.now number)) }
{
    is_below(values, run, number) || is_in(values, run, number)
}

// A test of numbers: whether their products are before the run.
#[derive(Clone, Copy)]
struct Below<'a> {
    values: &'a NumberedProducts,
    run: Run<'a>,
}

impl<'a> Test for Below<'a> {
    ghost passes = { λ b n. is_below b.run.end b.run.shape b.run.body.now (product_value_at b.values.now n) };

    #[inline(always)]
    fn test(&self, number: u32) -> bool {
        is_below(self.values, self.run, number)
    }
}

// A test of numbers: whether their products are before the run or in it.
#[derive(Clone, Copy)]
struct Within<'a> {
    values: &'a NumberedProducts,
    run: Run<'a>,
}

impl<'a> Test for Within<'a> {
    ghost passes = { λ b n. (is_below b.run.end b.run.shape b.run.body.now (product_value_at b.values.now n) || in_run b.run.end b.run.shape b.run.body.now b.run.whole (product_value_at b.values.now n)) };

    #[inline(always)]
    fn test(&self, number: u32) -> bool {
        is_within(self.values, self.run, number)
    }
}

// The numbers of the order whose products are in the run.
pub(crate) fn in_run<'a>(values: &NumberedProducts, order: &'a Blocks, run: Run) -> BlockPiece<'a>
    requires { Rises run.end values.now order.now.items }
    ensures { result ≡ filter (λ n. in_run run.entry.end run.entry.shape run.entry.body.now run.entry.whole (product_value_at values.now n)) order.now.items }
{
    let below = Below { values, run };
    let within = Within { values, run };
    order.between(&below, &within)
}

// Adds a number to the order, after the numbers whose products are before its product. Allocates: no.
pub(crate) fn put_number(values: &NumberedProducts, order: &mut Blocks, end: End, number: u32)
    requires rises { Rises end values.now order.old.items }
    requires ready { order.old.ready ≡ true }
    ensures rises { Rises end values.now order.new.items }
    ensures added { IsPermutation (number ∷ order.old.items) order.new.items }
{
    let (shape, body) = key_of(values, number);
    let run = Run {
        end,
        shape,
        body,
        whole: true,
    };
    let below = Below { values, run };
    order.put(&below, number);
}

// Removes a number from the order. Visits the numbers whose products have the same body. Allocates: no.
pub(crate) fn take_number(values: &NumberedProducts, order: &mut Blocks, end: End, number: u32)
    requires rises { Rises end values.now order.old.items }
    requires there { Contains order.old.items number }
    ensures rises { Rises end values.now order.new.items }
    ensures taken { SameElements order.old.items (number ∷ order.new.items) }
{
    let (shape, body) = key_of(values, number);
    let run = Run {
        end,
        shape,
        body,
        whole: true,
    };
    let below = Below { values, run };
    order.take(&below, number);
}
