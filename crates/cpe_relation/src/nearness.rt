// Whether a source product is near a target product.
ghost use Rattle.std.specs.Prelude.{◌≡◌, ◌↔◌, not, IsTrue};
ghost use Rattle.cpe_values.specs.Parts.{is_nothing};
ghost use Rattle.cpe_relation.specs.MatchTests.{begins_with};
ghost use Rattle.cpe_relation.specs.Near.{near, near_plain, text_ends_with, Near};

use crate::matching::is_same;
use cpe_values::{Edge, Pattern, Value};

fn is_something(edge: Edge) -> bool
    ensures { result ≡ not (is_nothing edge) }
{
    !matches!(edge, Edge::None)
}

fn is_start(text: &[u8], body: &[u8]) -> bool
    ensures { result ≡ begins_with text.now body.now }
{
    body.len() <= text.len() && is_same(&text[..body.len()], body)
}

fn is_end(text: &[u8], body: &[u8]) -> bool
    ensures { result ≡ text_ends_with text.now body.now }
{
    body.len() <= text.len() && is_start(&text[text.len() - body.len()..], body)
}

fn near_plain(source: &Pattern, target: &[u8]) -> bool
    ensures { result ≡ near_plain source.now target.now }
{
    match (is_something(source.lead()), is_something(source.trail())) {
        (true, true) => true,
        (true, false) => is_end(target, source.stem()),
        (false, true) => is_start(target, source.stem()),
        (false, false) => is_same(source.stem(), target),
    }
}

fn is_near(source: &Value, target: &Value) -> bool
    ensures { result ≡ near source.now target.now }
{
    match (source, target) {
        (Value::Any, _) => true,
        (Value::Na, Value::Na) => true,
        (Value::Text(source), Value::Text(target)) => {
            !target.has_wildcards() && near_plain(source, target.stem())
        }
        _ => false,
    }
}

/// Whether a source product is near a target product, in lower case. ANY is near each target, and NA is near NA. A text
/// is near a target without specials in four cases. With a lead and a trail it is near each. With only a trail, its
/// body has to be a prefix of the target. With only a lead, its body has to be a suffix of the target. Without both,
/// the two texts have to be equal.
///
/// If a name [`covers`](crate::covers) another, their products are near ([`cover_laws`](crate::cover_laws)). The number
/// of characters that a lead or trail allows doesn't count, so `sp?` is near `sp123`. The rule is this project's own:
/// it serves to look up the names that a product may cover. Allocates: no.
pub fn near(source: &Value, target: &Value) -> bool
    // The result, by the function `near`.
    ensures value { result ≡ near source.now target.now }
    // The result, by the statements `Near`.
    ensures table { IsTrue result ↔ Near source.now target.now }
{
    is_near(source, target)
}
