// Reads names from their texts.
ghost use Rattle.std.specs.Prelude.{◌≡◌, ◌≤◌, ◌-◌, ◌∷◌, List, ℕ, length, take, drop, map, IfOk, IfErr, MatchResult};
ghost use Rattle.cpe_values.specs.Spelled.{IsSpelling};
ghost use Rattle.cpe_values.specs.Unspelling.{parts_at};
ghost use Rattle.cpe_name.specs.Eleven.{Values};
ghost use Rattle.cpe_name.specs.Names.{named, IsName};
ghost use Rattle.cpe_name.specs.Text.{output_text};
ghost use Rattle.cpe_name.specs.WfnText.{WfnText, RefusesWfn};
ghost use Rattle.cpe_name.specs.Spans.{texts};
ghost use Rattle.cpe_name.specs.Unwriting.{IsAnyText, inner, value_from};

use crate::scan::scan_wfn;
use crate::{ReadValue, Wfn, read_name};
use cpe_values::{Memory, Pattern, Value, read_spelling};
use std::alloc::Global;
use thiserror::Error;

/// Why a name could not be read from a text.
#[derive(Clone, Copy, Debug, PartialEq, Eq, Error)]
pub enum WfnFault {
    /// No name has this text.
    #[error("no name has this text")]
    NotWfn,
    /// Memory ran out.
    #[error("out of memory")]
    Memory,
}

// The bytes of a text between its quotes.
fn between_quotes(text: &[u8]) -> &[u8]
    requires { 2 ≤ length text.now }
    ensures { result.now ≡ inner text.now }
{
    &text[1..text.len() - 1]
}

fn text_between_quotes(alloc: Global, text: &[u8]) -> Result<Pattern, Memory>
    requires long { 2 ≤ length text.now }
    requires spelling { IsSpelling (inner text.now) }
    ensures { IfOk result (λ pattern. pattern ≡ parts_at (inner text.now)) }
{
    read_spelling(alloc, between_quotes(text))
}

fn value_of(alloc: Global, text: &[u8]) -> Result<Value, Memory>
    requires { IsAnyText text.now }
    ensures { IfOk result (λ value. value ≡ value_from text.now) }
{
    match text {
        [b'"', ..] => Ok(Value::Text(text_between_quotes(alloc, text)?)),
        [b'N', ..] => Ok(Value::Na),
        _ => Ok(Value::Any),
    }
}

// A reader of the values in the text of a well-formed name.
#[derive(Drop)]
struct Quoted {
    alloc: Global,
}

impl ReadValue for Quoted {
    ghost may_occur = { IsAnyText };

    ghost value = { value_from };

    fn read(&mut self, text: &[u8]) -> Result<Value, Memory> {
        value_of(self.alloc, text)
    }
}

/// The name with this text (NIST IR 7695, 5). Attributes may be in any order, each at most once. Spaces are allowed
/// only after commas. An attribute that is missing is ANY. The case of letters is kept.
///
/// # Errors
///
/// `NotWfn` exactly if no name has this text, even if memory runs out; otherwise `Memory` if memory runs out.
pub fn read_wfn(alloc: Global, text: &[u8]) -> Result<Wfn, WfnFault>
    // The name that was read has this text.
    ensures found { IfOk result (λ name. WfnText name text.now) }
    // If a name has this text, this name is read unless memory runs out.
    ensures only { (name : Values) → WfnText name text.now → MatchResult result (λ found. found ≡ name) (λ fault. fault ≡ WfnFault.Memory) }
    // The error is `NotWfn` exactly if no name has this text, even if memory runs out.
    ensures refused { IfErr result (λ fault. RefusesWfn fault text.now) }
{
    let Some(written) = scan_wfn(text) else {
        return Err(WfnFault::NotWfn);
    };
    match read_name(&mut Quoted { alloc }, &written) {
        Ok(name) => Ok(name),
        Err(_) => Err(WfnFault::Memory),
    }
}

/// Law: the output text of a name is one of its texts, and no text is that of two names.
pub fn wfn_texts()
    ensures output { (name : Values) → IsName name → WfnText name (output_text name) }
    ensures one { (a b : Values) (text : List ℕ) → WfnText a text → WfnText b text → a ≡ b }
{}
