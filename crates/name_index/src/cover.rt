// Whether a product covers another.
ghost use Rattle.std.specs.Prelude.{◌≡◌};
ghost use Rattle.cpe_relation.specs.NameRelation.{is_above};
ghost use Rattle.name_index.specs.Listed.{product_value_at};
ghost use Rattle.name_index.specs.Near.{covers_product};

use crate::products::Products;
use cpe_relation::{Relation, compare_values};
use cpe_values::Value;

fn is_above(relation: Relation) -> bool
    ensures { result ≡ is_above relation }
{
    matches!(relation, Relation::Equal | Relation::Superset)
}

fn covers_product(asked: &Value, other: &Value) -> bool
    ensures { result ≡ covers_product asked.now other.now }
{
    is_above(compare_values(asked, other))
}

impl Products {
    // Whether the product `asked` covers the product of a number: it is SUPERSET of that product, or EQUAL to it (NIST
    // IR 7696, 6). Allocates: no.
    pub(crate) fn is_covered(&self, asked: &Value, number: u32) -> bool
        ensures { result ≡ covers_product asked.now (product_value_at self.now number) }
    {
        match self.values.get(number) {
            Some(value) => covers_product(asked, value),
            None => matches!(asked, Value::Any),
        }
    }
}
