// Borrowed values: they are to values as `&str` is to `String`.
ghost use Rattle.std.specs.Prelude.{◌≡◌};
ghost use Rattle.cpe_values.specs.Parts.{has_special};
ghost use Rattle.cpe_values.specs.Borrowed.{text_lent, value_lent};

use crate::value::{Edge, Pattern, Value, is_special};

/// A text whose body is borrowed from a [`Pattern`], or from a line that contains the body unchanged.
///
/// Any parts are allowed, even parts that make no text.
#[derive(Clone, Copy, Debug)]
pub struct TextRef<'a> {
    /// The specials before the body, if any.
    pub lead: Edge,
    /// The body, without backslashes.
    pub stem: &'a [u8],
    /// The specials after the body, if any.
    pub trail: Edge,
}

/// A value of an attribute, borrowed from a [`Value`] or from a line. Allocates: no.
#[derive(Clone, Copy, Debug)]
pub enum ValueRef<'a> {
    /// The logical value ANY (NIST IR 7695, 5.3).
    Any,
    /// The logical value NA: not applicable (NIST IR 7695, 5.3).
    Na,
    /// A text.
    Text(TextRef<'a>),
}

impl TextRef<'_> {
    /// Whether the text has a special, `*` or `?`, before or after its body.
    pub fn has_wildcards(&self) -> bool
        ensures { result ≡ has_special (text_lent self.now) }
    {
        is_special(self.lead, self.trail)
    }
}

impl Pattern {
    /// The same text, borrowed.
    pub fn as_ref(&self) -> TextRef<'_>
        ensures { text_lent result ≡ self.now }
    {
        TextRef {
            lead: self.lead(),
            stem: self.stem(),
            trail: self.trail(),
        }
    }
}

impl Value {
    /// The same value, borrowed.
    pub fn as_ref(&self) -> ValueRef<'_>
        ensures { value_lent result ≡ self.now }
    {
        match self {
            Value::Any => ValueRef::Any,
            Value::Na => ValueRef::Na,
            Value::Text(text) => ValueRef::Text(text.as_ref()),
        }
    }
}
