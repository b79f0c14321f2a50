// Whether a value is EQUAL or SUPERSET to another. This needs fewer comparisons than the relation itself.
ghost use Rattle.std.specs.Prelude.{◌≡◌};
ghost use Rattle.cpe_relation.specs.NameRelation.{is_above};
ghost use Rattle.cpe_relation.specs.Table.{relation, to_plain};

use crate::matching::{is_match, is_same};
use cpe_values::{Pattern, Value};

fn is_above_plain(source: &Pattern, target: &[u8]) -> bool
    ensures { result ≡ is_above (to_plain source.now target.now) }
{
    if source.has_wildcards() {
        return is_match(&source.as_ref(), target);
    }
    is_same(source.stem(), target)
}

fn is_above_text(source: &Pattern, target: &Pattern) -> bool
    ensures { result ≡ is_above (relation (Value.Text source.now) (Value.Text target.now)) }
{
    if target.has_wildcards() {
        return false;
    }
    is_above_plain(source, target.stem())
}

pub(crate) fn is_above(source: &Value, target: &Value) -> bool
    ensures { result ≡ is_above (relation source.now target.now) }
{
    match (source, target) {
        (Value::Any, Value::Text(target)) => !target.has_wildcards(),
        (Value::Any, Value::Any) => true,
        (Value::Any, Value::Na) => true,
        (Value::Na, Value::Na) => true,
        (Value::Text(source), Value::Text(target)) => is_above_text(source, target),
        _ => false,
    }
}
