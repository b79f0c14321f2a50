// The values of a name as texts, and the values read from them.
ghost use Rattle.std.specs.Prelude.{◌≡◌, ℕ, List, map, IfOk};
ghost use Rattle.std.specs.List.{AllByRecursion};
ghost use Rattle.cpe_values.specs.declared.value.Value.{Value as AnyValue};
ghost use Rattle.cpe_name.specs.Names.{named, IsName};
ghost use Rattle.cpe_name.specs.Scanning.{slot, put_text, none_given};
ghost use Rattle.cpe_name.specs.Spans.{texts};

use crate::name::any_of_each;
use crate::{Attribute, Eleven, Values, Wfn};
use cpe_values::{Memory, Value};

/// The texts of the eleven values of a name in one of its bindings. In the text of a well-formed name, each is `ANY`,
/// `NA`, a text between double quotes, or empty if its attribute is missing.
pub type Written<'a> = Eleven<&'a [u8]>;

// An empty text for each attribute.
pub(crate) fn no_texts<'a>() -> Written<'a>
    ensures { texts result ≡ none_given }
{
    Written {
        part: b"",
        vendor: b"",
        product: b"",
        version: b"",
        update: b"",
        edition: b"",
        language: b"",
        sw_edition: b"",
        target_sw: b"",
        target_hw: b"",
        other: b"",
    }
}

// The text of an attribute.
#[tactic(auto, using(crate::proofs::Slots::slot_is))]
pub(crate) fn text_at<'a>(written: &Written<'a>, which: Attribute) -> &'a [u8]
    ensures { result.now ≡ slot (texts written.now) which }
{
    *written.get(which)
}

// Replaces the text of an attribute.
#[tactic(auto, using(crate::proofs::Slots::put_is))]
pub(crate) fn put_text<'a>(written: &mut Written<'a>, which: Attribute, text: &'a [u8])
    ensures { texts written.new ≡ put_text (texts written.old) which text.now }
{
    written.set(which, text)
}

/// How to read a value from its text in a binding.
pub trait ReadValue {
    ghost may_occur: { List ℕ → Type 0 };

    ghost value: { List ℕ → AnyValue };

    /// The value of this text.
    ///
    /// # Errors
    /// `Memory` if memory runs out; there is no other error.
    fn read(&mut self, text: &[u8]) -> Result<Value, Memory>
        requires { may_occur text.now }
        ensures { IfOk result (λ found. found ≡ value text.now) };
}

fn read_values<R: ReadValue>(reader: &mut R, written: &Written) -> Result<Values, Memory>
    requires { AllByRecursion R.may_occur (texts written.now) }
    ensures { IfOk result (λ values. values ≡ named (map R.value (texts written.now))) }
{
    let mut values = any_of_each();
    values.part = reader.read(written.part)?;
    values.vendor = reader.read(written.vendor)?;
    values.product = reader.read(written.product)?;
    values.version = reader.read(written.version)?;
    values.update = reader.read(written.update)?;
    values.edition = reader.read(written.edition)?;
    values.language = reader.read(written.language)?;
    values.sw_edition = reader.read(written.sw_edition)?;
    values.target_sw = reader.read(written.target_sw)?;
    values.target_hw = reader.read(written.target_hw)?;
    values.other = reader.read(written.other)?;
    Ok(values)
}

/// The name whose values have these texts.
///
/// # Errors
/// `Memory` if memory runs out; there is no other error.
pub fn read_name<R: ReadValue>(reader: &mut R, written: &Written) -> Result<Wfn, Memory>
    requires are_present { AllByRecursion R.may_occur (texts written.now) }
    requires lawful { IsName (named (map R.value (texts written.now))) }
    ensures { IfOk result (λ name. name ≡ named (map R.value (texts written.now))) }
{
    let values = read_values(reader, written)?;
    Ok(Wfn { values })
}
