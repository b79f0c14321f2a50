// A walk over the products that are near a product.
ghost use Rattle.std.specs.Bool.{OnTrue, OnFalse};
ghost use Rattle.std.specs.Prelude.{◌≡◌, ◌≤◌, ◌<◌, ◌+◌, ◌-◌, ℕ, true, false, drop, List, ◌++◌, [], length, filter};
ghost use Rattle.std.specs.Iterator.{YieldsFirst, item_count};
ghost use Rattle.cpe_values.specs.Lower.{lower_value};
ghost use Rattle.cpe_relation.specs.Near.{near};
ghost use Rattle.cpe_values.specs.declared.value.Value.TheVariants.{Text};
ghost use Rattle.name_index.specs.declared.keys.End.TheVariants as end;
ghost use Rattle.name_index.specs.declared.keys.Shape.TheVariants as shapes;
ghost use Rattle.name_index.specs.Elements.{SameElements};
ghost use Rattle.name_index.specs.Keys.{in_run, shape_of, body_of};
ghost use Rattle.name_index.specs.Listed.{product_value_at, live};
ghost use Rattle.name_index.specs.Near.{near_on};
ghost use Rattle.name_index.specs.Walk.{shape_runs, all_runs};

use crate::blocks::Blocks;
use crate::keys::{End, Shape, text_shape};
use crate::numbered::NumberedProducts;
use crate::order::{Run, in_run};
use crate::piece::BlockPiece;
use crate::products::{Products, Side};
use cpe_values::{Pattern, Value};
use std::marker::Model;

// The numbers of the products near a given product, each once. Contracts see the numbers that are left. A step doesn't
// allocate.
#[derive(Drop)]
pub(crate) struct NearProducts<'a> {
    values: &'a NumberedProducts,
    order: &'a Blocks,
    // The numbers that are left of three runs, which are visited in this order.
    first: BlockPiece<'a>,
    second: BlockPiece<'a>,
    third: BlockPiece<'a>,
    // `text`: the body of a plain text. `fronts`: how many of its prefixes are still to be tried as the body of a
    // product with only a trail. `ends`: how many of its suffixes are still to be tried as the body of a product with
    // only a lead. The longest is tried first.
    text: &'a [u8],
    fronts: usize,
    ends: usize,
}

impl<'a> Model for NearProducts<'a> {
    ghost use Rattle.std.specs.Prelude.{ℕ, List, ◌++◌};
    ghost use Rattle.name_index.specs.Walk.{all_runs, IsWalkIn};

    ghost Value = { List ℕ };

    ghost view = { λ a. a.first ++ a.second ++ a.third ++ all_runs a.values.now a.order.now.items a.text.now a.fronts a.ends };

    ghost invariant = { λ a. IsWalkIn a.values.now a.order.now.items a.text.now a.fronts a.ends };
}

// The last `len` bytes of the text.
fn end_of(text: &[u8], len: usize) -> &[u8]
    requires { len ≤ length text.now }
    ensures { result.now ≡ drop (length text.now - len) text.now }
{
    &text[text.len() - len..]
}

fn are_empty(run: &BlockPiece<'_>, other: &BlockPiece<'_>) -> bool
    ensures empty { OnTrue result ((run.now ≡ []) × (other.now ≡ [])) }
    ensures some { OnFalse result (0 < length run.now + length other.now) }
{
    run.is_empty() && other.is_empty()
}

impl<'a> Iterator for NearProducts<'a> {
    type Item = u32;

    ghost next_gives = { YieldsFirst (λ rest. rest) };

    ghost remaining = { item_count (λ rest. rest) };

    fn next(&mut self) -> Option<u32> {
        while self.first.is_empty() {
            if !are_empty(&self.second, &self.third) {
                self.first = self.second.again();
                self.second = self.third.again();
                self.third = BlockPiece::none();
            } else if self.fronts > 0 {
                self.fronts -= 1;
                let run = Run {
                    end: End::Front,
                    shape: Shape::WithTrail,
                    body: &self.text[..self.fronts],
                    whole: true,
                };
                self.first = in_run(self.values, self.order, run);
            } else if self.ends > 0 {
                self.ends -= 1;
                let run = Run {
                    end: End::Front,
                    shape: Shape::WithLead,
                    body: end_of(self.text, self.ends),
                    whole: true,
                };
                self.first = in_run(self.values, self.order, run);
            } else {
                return None;
            }
        }
        self.first.next()
    }
}

impl Products {
    // The products of a shape whose bodies begin with `body`, or equal `body` if `whole`.
    fn front_run(&self, shape: Shape, body: &[u8], whole: bool) -> BlockPiece<'_>
        ensures { SameElements (filter (λ n. in_run end.Front shape body.now whole (product_value_at self.now n)) (live self.now)) result }
    {
        let run = Run {
            end: End::Front,
            shape,
            body,
            whole,
        };
        in_run(&self.values, &self.fronts, run)
    }

    // The products of a shape whose bodies end with `body`.
    fn end_run(&self, shape: Shape, body: &[u8]) -> BlockPiece<'_>
        ensures { SameElements (filter (λ n. in_run end.Back shape body.now false (product_value_at self.now n)) (live self.now)) result }
    {
        let run = Run {
            end: End::Back,
            shape,
            body,
            whole: false,
        };
        in_run(&self.values, &self.backs, run)
    }

    // The number of a plain text, if it is a product. It is found by its hash.
    fn same_text(&self, asked: &Value) -> BlockPiece<'_>
        requires { shape_of asked.now ≡ shapes.Plain }
        ensures { SameElements (filter (λ n. in_run end.Front shapes.Plain (body_of asked.now) true (product_value_at self.now n)) (live self.now)) result }
    {
        BlockPiece::of(self.values.find_alone(asked))
    }

    fn all(&self) -> BlockPiece<'_>
        ensures { SameElements (live self.now) result }
    {
        self.fronts.all()
    }

    // The products to which a text is near: one run.
    fn near_text(&self, asked: &Value, text: &Pattern) -> BlockPiece<'_>
        requires is { asked.now ≡ Text text.now }
        requires lower { lower_value (Text text.now) ≡ Text text.now }
        ensures { SameElements (filter (λ n. near (Text text.now) (product_value_at self.now n)) (live self.now)) result }
    {
        self.lawful();
        match text_shape(text) {
            Shape::Plain => self.same_text(asked),
            Shape::WithTrail => self.front_run(Shape::Plain, text.stem(), false),
            Shape::WithLead => self.end_run(Shape::Plain, text.stem()),
            _ => self.front_run(Shape::Plain, &[], false),
        }
    }

    // The products to which a product is near: one run.
    fn near_targets(&self, asked: &Value) -> BlockPiece<'_>
        requires { lower_value asked.now ≡ asked.now }
        ensures { SameElements (filter (λ n. near asked.now (product_value_at self.now n)) (live self.now)) result }
    {
        self.lawful();
        match asked {
            Value::Any => self.all(),
            Value::Na => self.front_run(Shape::Na, &[], false),
            Value::Text(text) => self.near_text(asked, text),
        }
    }

    // How many prefixes (or suffixes) of a text can be the body of a product of the shape: none if no product has the
    // shape.
    fn piece_count(&self, shape: Shape, text: &[u8]) -> usize
        ensures few { result ≤ length text.now + 1 }
        ensures enough { (piece : ℕ → List ℕ) → SameElements (shape_runs self.now (live self.now) shape piece (length text.now + 1)) (shape_runs self.now (live self.now) shape piece result) }
    {
        if self.front_run(shape, &[], false).is_empty() {
            return 0;
        }
        text.len() + 1
    }

    // A walk over three runs, and then over products whose body is a part of the text. First, products with only a
    // trail whose body is a prefix shorter than `fronts`. Then, products with only a lead whose body is a suffix
    // shorter than `ends`.
    fn in_runs<'a>(
        &'a self,
        first: BlockPiece<'a>,
        second: BlockPiece<'a>,
        third: BlockPiece<'a>,
        text: &'a [u8],
        fronts: usize,
        ends: usize,
    ) -> NearProducts<'a>
        requires fronts { fronts ≤ length text.now + 1 }
        requires ends { ends ≤ length text.now + 1 }
        ensures { SameElements (first.entry ++ second.entry ++ third.entry ++ all_runs self.now (live self.now) text.now fronts ends) result }
    {
        NearProducts {
            values: &self.values,
            order: &self.fronts,
            first,
            second,
            third,
            text,
            fronts,
            ends,
        }
    }

    // The products that are near a plain text.
    fn near_plain<'a>(
        &'a self,
        any: BlockPiece<'a>,
        asked: &Value,
        text: &'a Pattern,
    ) -> NearProducts<'a>
        requires is { asked.now ≡ Text text.now }
        requires lower { lower_value (Text text.now) ≡ Text text.now }
        requires plain { shape_of (Text text.now) ≡ shapes.Plain }
        requires any { SameElements (filter (λ n. in_run end.Front shapes.Any [] false (product_value_at self.now n)) (live self.now)) any }
        ensures { SameElements (filter (λ n. near (product_value_at self.now n) (Text text.now)) (live self.now)) result }
    {
        self.lawful();
        let body = text.stem();
        let same = self.same_text(asked);
        let both = self.front_run(Shape::WithBoth, &[], false);
        let fronts = self.piece_count(Shape::WithTrail, body);
        let ends = self.piece_count(Shape::WithLead, body);
        self.in_runs(any, same, both, body, fronts, ends)
    }

    // The products that are near a product.
    fn near_sources<'a>(&'a self, asked: &'a Value) -> NearProducts<'a>
        requires { lower_value asked.now ≡ asked.now }
        ensures { SameElements (filter (λ n. near (product_value_at self.now n) asked.now) (live self.now)) result }
    {
        let any = self.front_run(Shape::Any, &[], false);
        match asked {
            Value::Any => self.in_runs(any, BlockPiece::none(), BlockPiece::none(), &[], 0, 0),
            Value::Na => self.in_runs(
                any,
                self.front_run(Shape::Na, &[], false),
                BlockPiece::none(),
                &[],
                0,
                0,
            ),
            Value::Text(text) => match text_shape(text) {
                Shape::Plain => self.near_plain(any, asked, text),
                _ => self.in_runs(any, BlockPiece::none(), BlockPiece::none(), &[], 0, 0),
            },
        }
    }

    // A walk over the numbers of the products that are near `asked`, which is the source or the target. Allocates: no.
    //
    // A plain text as source is found by its hash, and any other source by one run of one of the orders. For a plain
    // text as target, the walk has a run for ANY, the text itself, and a run for the products with lead and trail. If
    // there are products with only a trail, it has a run for each prefix of the text. If there are products with only
    // a lead, it has a run for each suffix. For any other target, the walk has at most two runs.
    pub(crate) fn near<'a>(&'a self, asked: &'a Value, side: Side) -> NearProducts<'a>
        requires { lower_value asked.now ≡ asked.now }
        ensures { SameElements (filter (λ n. near_on side asked.now (product_value_at self.now n)) (live self.now)) result }
    {
        match side {
            Side::Source => self.in_runs(
                self.near_targets(asked),
                BlockPiece::none(),
                BlockPiece::none(),
                &[],
                0,
                0,
            ),
            Side::Target => self.near_sources(asked),
        }
    }
}
