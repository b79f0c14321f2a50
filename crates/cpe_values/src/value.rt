// The values of an attribute.
ghost use Rattle.std.specs.Prelude.{◌≡◌, ◌≢◌, ◌≤◌, IfOk, IfErr, IfSome, IsTrue, OnOk, Err, length, position, not, ◌||◌, false};
ghost use Rattle.cpe_values.specs.declared.short.TheConstants.{SHORT};
ghost use Rattle.cpe_values.specs.declared.value.Edge.TheVariants as edge;
ghost use Rattle.cpe_values.specs.Parts.{parts, is_character, is_nothing, has_special, IsEdge, IsText};
ghost use Rattle.cpe_values.specs.Faults.{first_value_fault, is_lone_hyphen, has_no_marks};
ghost use Rattle.cpe_values.specs.Values.{IsValue};
ghost use Rattle.cpe_values.specs.Lower.{has_specials};

use crate::short::{SHORT, ShortBody};
use crate::spelling::is_printable_byte;
use out_of_memory::Memory;
use std::alloc::Global;
use std::marker::Model;
use thiserror::Error;

/// The lead or the trail of a text: nothing, or special characters without a backslash (NIST IR 7695, 5.3).
#[derive(Clone, Copy, Debug, PartialEq, Eq, Hash)]
pub enum Edge {
    /// No special.
    None,
    /// One asterisk, which matches any number of characters.
    Star,
    /// This number of question marks, which match at most as many characters. In a text the number is at least 1.
    Marks(u32),
}

/// A text: a lead, a body of printable ASCII characters without backslashes, and a trail (NIST IR 7695, 5.3).
///
/// Contracts see these three parts. The body is not empty. A text without specials is not a single hyphen.
#[derive(Debug, Drop)]
pub struct Pattern {
    pub(crate) form: ValueForm,
}

// How a text is stored. Programs keep millions of names with eleven values each. Most texts are short and have no
// special. Such a text is stored inside its value, and any other text in a box.
#[derive(Debug, Drop)]
pub(crate) enum ValueForm {
    Short(ShortBody),
    Long(Box<LongText>),
}

#[derive(Debug, Drop)]
pub(crate) struct LongText {
    pub lead: Edge,
    pub body: Vec<u8>,
    pub trail: Edge,
}

impl Model for Pattern {
    ghost use Rattle.cpe_values.specs.Parts.{Parts, IsText};
    ghost use Rattle.cpe_values.specs.Forms.{form_parts};

    ghost Value = { Parts };

    ghost view = { λ p. form_parts p.form };

    ghost invariant = { λ p. IsText (form_parts p.form) };
}

/// A value of an attribute.
#[derive(Debug, Drop)]
pub enum Value {
    /// The logical value ANY (NIST IR 7695, 5.3).
    Any,
    /// The logical value NA: not applicable (NIST IR 7695, 5.3).
    Na,
    /// A text.
    Text(Pattern),
}

// (so the eleven values of a name take 264 bytes)
const _: () = prove!(size_of::<Value>() == 24);

/// Why a lead, a body and a trail make no text. The first fault in this order is returned.
#[derive(Clone, Copy, Debug, PartialEq, Eq, Error)]
pub enum ValueFault {
    /// The body has no character.
    #[error("the body is empty")]
    EmptyBody,
    /// A byte of the body is outside `!` to `~`. The number is the place of the first such byte, from 0.
    #[error("byte {0} of the body is not printable")]
    NotPrintable(usize),
    /// The body is one hyphen, without specials; this text means NA.
    #[error("a text without specials is not one hyphen")]
    LoneHyphen,
    /// The lead or the trail is `Marks` with the number 0.
    #[error("an edge has no marks")]
    ZeroMarks,
    /// Memory ran out.
    #[error("out of memory")]
    Memory,
}

// The place of the first byte that is not printable.
fn first_unprintable(body: &[u8]) -> Option<usize>
    ensures { result ≡ position (λ c. not (is_character c)) body.now }
{
    body.iter().position(|byte| !is_printable_byte(*byte))
}

// Whether the lead or the trail has a special.
pub(crate) fn is_special(lead: Edge, trail: Edge) -> bool
    ensures { result ≡ (not (is_nothing lead) || not (is_nothing trail)) }
{
    !matches!((lead, trail), (Edge::None, Edge::None))
}

// The text of these parts, stored in a box.
fn long_text(alloc: Global, lead: Edge, body: Vec<u8>, trail: Edge) -> Result<Pattern, Memory>
    requires { IsText (parts lead body.items trail) }
    ensures { IfOk result (λ p. p ≡ parts lead body.items trail) }
{
    let text = Box::new(alloc, LongText { lead, body, trail })?;
    let form = ValueForm::Long(text);
    Ok(Pattern { form })
}

// The text without specials that has this short body.
fn short_text(body: &[u8]) -> Pattern
    requires short { length body.now ≤ SHORT }
    requires text { IsText (parts edge.None body.now edge.None) }
    ensures { result ≡ parts edge.None body.now edge.None }
{
    let form = ValueForm::Short(ShortBody::new(body));
    Pattern { form }
}

// The text of these parts, made from an owned body.
pub(crate) fn own_text(
    alloc: Global,
    lead: Edge,
    body: Vec<u8>,
    trail: Edge,
) -> Result<Pattern, Memory>
    requires { IsText (parts lead body.items trail) }
    ensures { IfOk result (λ p. p ≡ parts lead body.items trail) }
{
    if is_short(lead, &body, trail) {
        return Ok(short_text(&body));
    }
    long_text(alloc, lead, body, trail)
}

// The text of these parts, with a copy of the body.
pub(crate) fn text_of(
    alloc: Global,
    lead: Edge,
    body: &[u8],
    trail: Edge,
) -> Result<Pattern, Memory>
    requires { IsText (parts lead body.now trail) }
    ensures { IfOk result (λ p. p ≡ parts lead body.now trail) }
{
    if is_short(lead, body, trail) {
        return Ok(short_text(body));
    }
    let body = Vec::from_slice(alloc, body)?;
    long_text(alloc, lead, body, trail)
}

// Whether the text of these parts can be stored inside its value: it has no special, and its body is short.
fn is_short(lead: Edge, body: &[u8], trail: Edge) -> bool
    ensures { IsTrue result → (lead ≡ edge.None) × (trail ≡ edge.None) × (length body.now ≤ SHORT) }
{
    !is_special(lead, trail) && body.len() <= SHORT
}

fn is_lone(lead: Edge, body: &[u8], trail: Edge) -> bool
    ensures { result ≡ is_lone_hyphen (parts lead body.now trail) }
{
    matches!((lead, body, trail), (Edge::None, [b'-'], Edge::None))
}

fn is_unmarked(edge: Edge) -> bool
    ensures value { result ≡ has_no_marks edge }
    ensures marked { result ≡ false → IsEdge edge }
{
    match edge {
        Edge::Marks(marks) => marks == 0,
        _ => false,
    }
}

impl Pattern {
    /// The text of these parts.
    ///
    /// # Errors
    /// The first fault of the parts, even if memory runs out. `Memory` if memory runs out and the parts have no fault.
    pub fn new(alloc: Global, lead: Edge, body: &[u8], trail: Edge) -> Result<Pattern, ValueFault>
        ensures text { IfOk result (λ p. p ≡ parts lead body.now trail) }
        ensures lawful { OnOk result (IsText (parts lead body.now trail)) }

        // Parts of a text are refused only if memory runs out. Other parts are refused with their first fault.
        ensures made { IsText (parts lead body.now trail) → IfErr result (λ f. f ≡ ValueFault.Memory) }
        ensures refused { IfSome (first_value_fault (parts lead body.now trail)) (λ f. result ≡ Err f) }
        ensures fault { IfErr result (λ f. f ≢ ValueFault.Memory → first_value_fault (parts lead body.now trail) ≡ Some f) }
    {
        if body.is_empty() {
            return Err(ValueFault::EmptyBody);
        }
        if let Some(place) = first_unprintable(body) {
            return Err(ValueFault::NotPrintable(place));
        }
        if is_lone(lead, body, trail) {
            return Err(ValueFault::LoneHyphen);
        }
        if is_unmarked(lead) || is_unmarked(trail) {
            return Err(ValueFault::ZeroMarks);
        }
        match text_of(alloc, lead, body, trail) {
            Ok(text) => Ok(text),
            Err(Memory) => Err(ValueFault::Memory),
        }
    }

    /// The specials before the body, if any.
    pub fn lead(&self) -> Edge
        ensures { result ≡ self.now.lead }
    {
        match &self.form {
            ValueForm::Short(_) => Edge::None,
            ValueForm::Long(text) => text.lead,
        }
    }

    /// The body, without backslashes.
    pub fn stem(&self) -> &[u8]
        ensures { result.now ≡ self.now.body }
    {
        match &self.form {
            ValueForm::Short(body) => body.as_slice(),
            ValueForm::Long(text) => &text.body,
        }
    }

    /// The specials after the body, if any.
    pub fn trail(&self) -> Edge
        ensures { result ≡ self.now.trail }
    {
        match &self.form {
            ValueForm::Short(_) => Edge::None,
            ValueForm::Long(text) => text.trail,
        }
    }
}

impl Pattern {
    /// Law: the parts of a text are lawful.
    pub fn lawful(&self)
        ensures { IsText self.now }
    {
        let _ = &self.form;
    }

    /// Whether the text has a special, `*` or `?`, before or after its body.
    pub fn has_wildcards(&self) -> bool
        ensures { result ≡ has_special self.now }
    {
        is_special(self.lead(), self.trail())
    }

    /// A copy of the text.
    ///
    /// # Errors
    /// `Memory` if memory runs out; there is no other error.
    pub fn copy(&self, alloc: Global) -> Result<Pattern, Memory>
        ensures { IfOk result (λ p. p ≡ self.now) }
    {
        self.lawful();
        match &self.form {
            ValueForm::Short(body) => Ok(Pattern {
                form: ValueForm::Short(body.copy()),
            }),
            ValueForm::Long(text) => {
                let body = Vec::from_slice(alloc, &text.body)?;
                long_text(alloc, text.lead, body, text.trail)
            }
        }
    }
}

impl Value {
    /// Whether the value is a text with a special, `*` or `?`, before or after its body.
    pub fn has_wildcards(&self) -> bool
        ensures { result ≡ has_specials self.now }
    {
        match self {
            Value::Text(text) => text.has_wildcards(),
            _ => false,
        }
    }

    /// A copy of the value.
    ///
    /// # Errors
    /// `Memory` if memory runs out; there is no other error.
    pub fn copy(&self, alloc: Global) -> Result<Value, Memory>
        ensures { IfOk result (λ v. v ≡ self.now) }
    {
        match self {
            Value::Any => Ok(Value::Any),
            Value::Na => Ok(Value::Na),
            Value::Text(text) => Ok(Value::Text(text.copy(alloc)?)),
        }
    }

    /// Law: a value is ANY, NA, or a text with lawful parts.
    pub fn lawful(&self)
        ensures { IsValue self.now }
    {
        if let Value::Text(text) = self {
            text.lawful();
        }
    }
}
