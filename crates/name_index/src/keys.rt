// Comparing products: first by their shapes, then by their bodies.
ghost use Rattle.std.specs.Prelude.{◌≡◌, ◌∷◌, reverse};
ghost use Rattle.std.specs.Ordering.{nat_cmp};
ghost use Rattle.std.specs.Cmp.Lexicographic.{slice_cmp};
ghost use Rattle.cpe_values.specs.declared.value.Value.TheVariants.{Text};
ghost use Rattle.cpe_values.specs.Parts.{is_nothing};
ghost use Rattle.name_index.specs.Keys.{shape_by, shape_of, shape_rank, body_of, turned_body, text_order, body_touches, has_by};

use cpe_values::{Edge, Pattern, Value};
use std::cmp::Ordering;

/// The end from which bodies are compared: the front or the back.
#[derive(Clone, Copy, Debug, PartialEq, Eq)]
pub(crate) enum End {
    Front,
    Back,
}

/// The shape of a product. In each order, products of the same shape are neighbours, and the shapes follow in this
/// order.
#[derive(Clone, Copy, Debug, PartialEq, Eq)]
pub(crate) enum Shape {
    Any,
    Na,
    Plain,
    WithTrail,
    WithLead,
    WithBoth,
}

fn is_nothing(edge: Edge) -> bool
    ensures { result ≡ is_nothing edge }
{
    matches!(edge, Edge::None)
}

fn shape_by(no_lead: bool, no_trail: bool) -> Shape
    ensures { result ≡ shape_by no_lead no_trail }
{
    match (no_lead, no_trail) {
        (true, true) => Shape::Plain,
        (true, false) => Shape::WithTrail,
        (false, true) => Shape::WithLead,
        (false, false) => Shape::WithBoth,
    }
}

pub(crate) fn text_shape(text: &Pattern) -> Shape
    ensures { result ≡ shape_of (Text text.now) }
{
    shape_by(is_nothing(text.lead()), is_nothing(text.trail()))
}

pub(crate) fn shape_of(value: &Value) -> Shape
    ensures { result ≡ shape_of value.now }
{
    match value {
        Value::Any => Shape::Any,
        Value::Na => Shape::Na,
        Value::Text(text) => text_shape(text),
    }
}

// The rank of a shape in the order of the shapes.
pub(crate) fn rank(shape: Shape) -> u8
    ensures { result ≡ shape_rank shape }
{
    shape as u8
}

// The body of a text, or no bytes if the value is ANY or NA.
pub(crate) fn body_of(value: &Value) -> &[u8]
    ensures { result.now ≡ body_of value.now }
{
    match value {
        Value::Text(text) => text.stem(),
        _ => &[],
    }
}

fn compare_from_back(body: &[u8], other: &[u8]) -> Ordering
    ensures { result ≡ slice_cmp nat_cmp (reverse body.now) (reverse other.now) }
{
    let mut left = body;
    let mut right = other;
    while let [left_front @ .., x] = left {
        let [right_front @ .., y] = right else {
            return Ordering::Greater;
        };
        let order = x.cmp(y);
        if order != Ordering::Equal {
            return order;
        }
        left = left_front;
        right = right_front;
    }
    if right.is_empty() {
        return Ordering::Equal;
    }
    Ordering::Less
}

fn compare_bodies(end: End, body: &[u8], other: &[u8]) -> Ordering
    ensures { result ≡ text_order (turned_body end body.now) (turned_body end other.now) }
{
    match end {
        End::Front => body.cmp(other),
        End::Back => compare_from_back(body, other),
    }
}

// Compares two products by shape, and then by body.
pub(crate) fn compare_keys(
    end: End,
    shape: Shape,
    body: &[u8],
    other_shape: Shape,
    other_body: &[u8],
) -> Ordering
    ensures { result ≡ text_order (shape_rank shape ∷ turned_body end body.now) (shape_rank other_shape ∷ turned_body end other_body.now) }
{
    match rank(shape).cmp(&rank(other_shape)) {
        Ordering::Less => Ordering::Less,
        Ordering::Greater => Ordering::Greater,
        Ordering::Equal => compare_bodies(end, body, other_body),
    }
}

fn touches(end: End, body: &[u8], text: &[u8]) -> bool
    ensures { result ≡ body_touches end body.now text.now }
{
    match end {
        End::Front => text.starts_with(body),
        End::Back => text.ends_with(body),
    }
}

// Whether `text` equals `body`, if `whole`, and else whether `text` has `body` at this end.
pub(crate) fn has_body(whole: bool, end: End, body: &[u8], text: &[u8]) -> bool
    ensures { result ≡ has_by whole end body.now text.now }
{
    if whole {
        return body == text;
    }
    touches(end, body, text)
}
