// Makes the values of a name from the pieces of its URI.
ghost use Rattle.std.specs.Prelude.{◌≡◌, ◌≤◌, length, take, map, IfOk};
ghost use Rattle.cpe_values.specs.Spelled.{IsSpelling};
ghost use Rattle.cpe_values.specs.Unspelling.{parts_at};
ghost use Rattle.cpe_name.specs.Prelude.{IsName, named, texts};
ghost use Rattle.cpe_uri.specs.Rewriting.{rewritten, is_uri_hyphen};
ghost use Rattle.cpe_uri.specs.SpanValues.{uri_value_at, IsUriSpan, AreSpans};

use crate::write::put_rewritten;
use cpe_name::{ReadValue, Wfn, Written, read_name};
use cpe_values::{Memory, Pattern, Value, read_spelling};
use std::alloc::Global;

pub(crate) fn is_hyphen(span: &[u8]) -> bool
    ensures { result ≡ is_uri_hyphen span.now }
{
    matches!(span, [b'-'])
}

// Writes a piece as a name spells it, at the beginning of `scratch`, and returns the length. All values of a name share
// `scratch`, which only grows.
fn rewrite(scratch: &mut Vec<u8>, span: &[u8]) -> Result<usize, Memory>
    ensures within { IfOk result (λ end. end ≤ length scratch.new.items) }
    ensures written { IfOk result (λ end. take end scratch.new.items ≡ rewritten span.now) }
{
    let most = 2 * span.len();
    if scratch.len() < most {
        scratch.resize(most, 0)?;
    }
    Ok(put_rewritten(scratch, 0, span))
}

fn text_of(alloc: Global, scratch: &mut Vec<u8>, span: &[u8]) -> Result<Pattern, Memory>
    requires { IsSpelling (rewritten span.now) }
    ensures { IfOk result (λ text. text ≡ parts_at (rewritten span.now)) }
{
    let end = rewrite(scratch, span)?;
    read_spelling(alloc, &scratch[..end])
}

fn value_of(alloc: Global, scratch: &mut Vec<u8>, span: &[u8]) -> Result<Value, Memory>
    requires { IsUriSpan span.now }
    ensures { IfOk result (λ value. value ≡ uri_value_at span.now) }
{
    if span.is_empty() {
        Ok(Value::Any)
    } else if is_hyphen(span) {
        Ok(Value::Na)
    } else {
        Ok(Value::Text(text_of(alloc, scratch, span)?))
    }
}

// A reader of values from the pieces of a URI.
#[derive(Drop)]
struct Pieces {
    alloc: Global,
    scratch: Vec<u8>,
}

impl ReadValue for Pieces {
    ghost may_occur = { IsUriSpan };

    ghost value = { uri_value_at };

    fn read(&mut self, text: &[u8]) -> Result<Value, Memory> {
        value_of(self.alloc, &mut self.scratch, text)
    }
}

// The name whose values these pieces spell.
pub(crate) fn name_at(alloc: Global, spans: &Written) -> Result<Wfn, Memory>
    requires are_present { AreSpans (texts spans.now) }
    requires lawful { IsName (named (map uri_value_at (texts spans.now))) }
    ensures { IfOk result (λ name. name ≡ named (map uri_value_at (texts spans.now))) }
{
    let scratch = Vec::new(alloc);
    read_name(&mut Pieces { alloc, scratch }, spans)
}
