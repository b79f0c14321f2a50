// Texts and values in lower case.
ghost use Rattle.std.specs.Prelude.{◌≡◌, ◌↔◌, IsTrue, IfOk};
ghost use Rattle.std.specs.Str.{str_to_ascii_lowercase};
ghost use Rattle.cpe_values.specs.Forms.{form_parts};
ghost use Rattle.cpe_values.specs.Lower.{lower_parts, lower_value};

use crate::value::{Pattern, Value, ValueForm};
use out_of_memory::Memory;
use std::alloc::Global;

fn make_lower_body(body: &mut Vec<u8>)
    ensures { body.new.items ≡ str_to_ascii_lowercase body.old.items }
{
    body.as_mut_slice().make_ascii_lowercase();
}

fn make_lower_form(form: &mut ValueForm)
    ensures { form_parts form.new ≡ lower_parts (form_parts form.old) }
{
    match form {
        ValueForm::Short(body) => body.make_lower(),
        ValueForm::Long(text) => make_lower_body(&mut text.body),
    }
}

fn is_lower_body(body: &[u8]) -> bool
    ensures { IsTrue result ↔ (str_to_ascii_lowercase body.now ≡ body.now) }
{
    body.iter().all(|byte| !byte.is_ascii_uppercase())
}

impl Pattern {
    /// The text with every letter in lower case, in the same memory. Allocates: no.
    pub fn into_lower(self) -> Pattern
        ensures { result ≡ lower_parts self }
    {
        let Pattern { mut form } = self;
        make_lower_form(&mut form);
        Pattern { form }
    }

    /// Changes every letter of the text to lower case, in place. Allocates: no.
    pub fn make_lower(&mut self)
        ensures { self.new ≡ lower_parts self.old }
    {
        make_lower_form(&mut self.form);
    }

    /// A copy of the text with every letter in lower case.
    ///
    /// # Errors
    /// `Memory` if memory runs out; there is no other error.
    pub fn lower(&self, alloc: Global) -> Result<Pattern, Memory>
        ensures { IfOk result (λ p. p ≡ lower_parts self.now) }
    {
        Ok(self.copy(alloc)?.into_lower())
    }

    /// Whether two texts are equal except for the case of letters. Allocates: no.
    pub fn same(&self, other: &Pattern) -> bool
        ensures { IsTrue result ↔ (lower_parts self.now ≡ lower_parts other.now) }
    {
        self.lead() == other.lead()
            && self.trail() == other.trail()
            && self.stem().eq_ignore_ascii_case(other.stem())
    }

    /// Whether the text has no letter in upper case. Allocates: no.
    pub fn is_lower(&self) -> bool
        ensures { IsTrue result ↔ (lower_parts self.now ≡ self.now) }
    {
        is_lower_body(self.stem())
    }
}

impl Value {
    /// Changes every letter of the value to lower case, in place. Allocates: no.
    pub fn make_lower(&mut self)
        ensures { self.new ≡ lower_value self.old }
    {
        match self {
            Value::Any | Value::Na => {}
            Value::Text(text) => text.make_lower(),
        }
    }

    /// A copy of the value with every letter in lower case.
    ///
    /// # Errors
    /// `Memory` if memory runs out; there is no other error.
    pub fn lower(&self, alloc: Global) -> Result<Value, Memory>
        ensures { IfOk result (λ v. v ≡ lower_value self.now) }
    {
        Ok(self.copy(alloc)?.into_lower())
    }

    /// The value with every letter in lower case, in the same memory. Allocates: no.
    pub fn into_lower(self) -> Value
        ensures { result ≡ lower_value self }
    {
        match self {
            Value::Any => Value::Any,
            Value::Na => Value::Na,
            Value::Text(text) => Value::Text(text.into_lower()),
        }
    }

    /// Whether two values are equal except for the case of letters. Allocates: no.
    pub fn same(&self, other: &Value) -> bool
        ensures { IsTrue result ↔ (lower_value self.now ≡ lower_value other.now) }
    {
        match (self, other) {
            (Value::Any, Value::Any) => true,
            (Value::Na, Value::Na) => true,
            (Value::Text(text), Value::Text(other)) => text.same(other),
            _ => false,
        }
    }

    /// Whether the value has no letter in upper case. Allocates: no.
    pub fn is_lower(&self) -> bool
        ensures { IsTrue result ↔ (lower_value self.now ≡ self.now) }
    {
        match self {
            Value::Any | Value::Na => true,
            Value::Text(text) => text.is_lower(),
        }
    }
}
