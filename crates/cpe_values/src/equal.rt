// Equality and hash input of texts and values. Equality is that of contracts, so the case of letters counts. Equal
// values have the same hash input. The input is short, since names are hashed at each look-up: a text gives its body
// alone, and ANY gives nothing.
ghost use Rattle.std.specs.Prelude.{◌≡◌, ◌↔◌, IsTrue};
ghost use Rattle.std.specs.Cmp.{partial_equiv_from_equiv, decided};
ghost use Rattle.std.specs.Hash.{same_Alike};
ghost use Rattle.cpe_values.specs.Same.{same_parts, same_value, parts_input, value_input};
ghost use Rattle.cpe_values.specs.Equal.{same_parts-Decides, same_value-Decides};

use crate::value::{Pattern, Value};
use std::hash::{Hash, Hasher};

impl PartialEq for Pattern {
    ghost eq = { same_parts };

    ghost laws = { partial_equiv_from_equiv (decided same_parts same_parts-Decides) };

    fn eq(&self, other: &Pattern) -> bool
        ensures value { result ≡ same_parts self.now other.now }
        ensures same { IsTrue result ↔ (self.now ≡ other.now) }
    {
        self.lead() == other.lead() && self.stem() == other.stem() && self.trail() == other.trail()
    }
}

impl Eq for Pattern {
    ghost laws = { decided same_parts same_parts-Decides };
}

impl Hash for Pattern {
    ghost hash_input = { parts_input };

    ghost respects_eq = { (same_Alike parts_input same_parts-Decides).fed };

    fn hash<H: Hasher>(&self, state: &mut H) {
        state.write(self.stem());
    }
}

impl PartialEq for Value {
    ghost eq = { same_value };

    ghost laws = { partial_equiv_from_equiv (decided same_value same_value-Decides) };

    fn eq(&self, other: &Value) -> bool
        ensures value { result ≡ same_value self.now other.now }
        ensures same { IsTrue result ↔ (self.now ≡ other.now) }
    {
        match (self, other) {
            (Value::Any, Value::Any) => true,
            (Value::Na, Value::Na) => true,
            (Value::Text(a), Value::Text(b)) => a == b,
            _ => false,
        }
    }
}

impl Eq for Value {
    ghost laws = { decided same_value same_value-Decides };
}

impl Hash for Value {
    ghost hash_input = { value_input };

    ghost respects_eq = { (same_Alike value_input same_value-Decides).fed };

    fn hash<H: Hasher>(&self, state: &mut H) {
        match self {
            Value::Any => {}
            Value::Na => state.write_u8(1),
            Value::Text(text) => text.hash(state),
        }
    }
}
