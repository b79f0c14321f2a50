// Well-formed names.
ghost use Rattle.std.specs.Prelude.{◌≡◌, IfOk, IsOk, OnOk, OnErr, IfErr, IsTrue};
ghost use Rattle.cpe_name.specs.Eleven.{Values, put};
ghost use Rattle.cpe_name.specs.Names.{value_of, Suits, IsName, IsFault, any_values};
ghost use Rattle.cpe_name.specs.Shapes.{is_part};

use crate::shape::{is_lawful_language, is_lawful_part};
use crate::{Attribute, Eleven};
use cpe_values::Value;
use std::marker::Model;
use thiserror::Error;

/// A value for each [`Attribute`]. Any values are allowed; [`Wfn::new`] tests whether they make a name.
pub type Values = Eleven<Value>;

/// A well-formed name (NIST IR 7695, 5): eleven values, of which the part and the language have a special shape.
///
/// Contracts see the values. The case of letters is kept.
#[derive(Debug, Drop)]
pub struct Wfn {
    pub(crate) values: Values,
}

// The size of a name is proved, since programs keep millions of names.
const _: () = prove!(size_of::<Wfn>() == 264);

impl Model for Wfn {
    ghost use Rattle.cpe_name.specs.Eleven.{Values};
    ghost use Rattle.cpe_name.specs.Names.{IsName};

    ghost Value = { Values };

    ghost view = { λ w. w.values };

    ghost invariant = { λ w. IsName w.values };
}

/// Why eleven values make no name. The first fault in this order is returned.
#[derive(Clone, Copy, Debug, PartialEq, Eq, Error)]
pub enum NameFault {
    /// The part is a text other than `a`, `h` or `o` (NIST IR 7695, 5.3).
    #[error("the part is not `a`, `h` or `o`")]
    BadPart,
    /// The language is a text of another shape than two or three letters, perhaps with a region after them (NIST IR
    /// 7695, 5.3).
    #[error("the language is not two or three letters, perhaps with a region")]
    BadLanguage,
}

impl Wfn {
    /// The name of these values. Allocates: no.
    ///
    /// # Errors
    /// `BadPart` exactly if the part has a wrong shape. `BadLanguage` exactly if the part's shape is right and the
    /// language's is wrong.
    pub fn new(values: Values) -> Result<Wfn, NameFault>
        ensures name { IfOk result (λ w. w ≡ values) }
        ensures lawful { OnOk result (IsName values) }
        ensures made { IsName values → IsOk result }
        ensures fault { IfErr result (λ f. IsFault f values) }
    {
        if !is_lawful_part(&values.part) {
            return Err(NameFault::BadPart);
        }
        if !is_lawful_language(&values.language) {
            return Err(NameFault::BadLanguage);
        }
        values.part.lawful();
        values.vendor.lawful();
        values.product.lawful();
        values.version.lawful();
        values.update.lawful();
        values.edition.lawful();
        values.language.lawful();
        values.sw_edition.lawful();
        values.target_sw.lawful();
        values.target_hw.lawful();
        values.other.lawful();
        Ok(Wfn { values })
    }

    /// Law: each value of a name suits its attribute.
    pub fn lawful(&self)
        ensures { IsName self.now }
    {
        let _ = &self.values;
    }

    /// The value of an attribute.
    pub fn get(&self, which: Attribute) -> &Value
        ensures { result.now ≡ value_of self.now which }
    {
        self.values.get(which)
    }
}

// The value ANY for each attribute.
pub(crate) fn any_of_each() -> Values
    ensures { result ≡ any_values }
{
    Values {
        part: Value::Any,
        vendor: Value::Any,
        product: Value::Any,
        version: Value::Any,
        update: Value::Any,
        edition: Value::Any,
        language: Value::Any,
        sw_edition: Value::Any,
        target_sw: Value::Any,
        target_hw: Value::Any,
        other: Value::Any,
    }
}

impl Wfn {
    /// The name whose eleven values are ANY.
    pub fn any() -> Wfn
        ensures { result ≡ any_values }
    {
        Wfn {
            values: any_of_each(),
        }
    }

    /// Replaces the value of an attribute. Allocates: no.
    ///
    /// # Errors
    /// As [`Wfn::new`] with the new value; the name is then unchanged.
    pub fn set(&mut self, which: Attribute, value: Value) -> Result<(), NameFault>
        ensures ok { OnOk result (self.new ≡ put self.old which value) }
        ensures err { OnErr result (self.new ≡ self.old) }
        ensures made { IsName (put self.old which value) → IsOk result }
        ensures fault { IfErr result (λ f. IsFault f (put self.old which value)) }
    {
        self.lawful();
        test_value(which, &value)?;
        self.values.set(which, value);
        Ok(())
    }
}

// Tests whether an attribute may have this value.
fn test_value(which: Attribute, value: &Value) -> Result<(), NameFault>
    ensures suits { OnOk result (Suits which value.now) }
    ensures unsuited { OnErr result (Suits which value.now → ⊥) }
    ensures fault { IfErr result (λ f. (name : Values) → IsTrue (is_part name.part) → IsFault f (put name which value.now)) }
{
    value.lawful();
    match which {
        Attribute::Part => {
            if !is_lawful_part(value) {
                return Err(NameFault::BadPart);
            }
            return Ok(());
        }
        Attribute::Language => {
            if !is_lawful_language(value) {
                return Err(NameFault::BadLanguage);
            }
            return Ok(());
        }
        _ => return Ok(()),
    }
}
