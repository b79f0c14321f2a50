// Makes values from the components of a formatted string.
ghost use Rattle.std.specs.Prelude.{◌≡◌, IfOk};
ghost use Rattle.cpe_fs.specs.Spans.{is_only, IsFsSpan};
ghost use Rattle.cpe_fs.specs.SpanValues.{fs_value_at};

use cpe_name::ReadValue;
use cpe_values::{Memory, Value, read_spelling};
use std::alloc::Global;

// Whether a component is only this byte.
pub(crate) fn is_only(span: &[u8], byte: u8) -> bool
    ensures { result ≡ is_only byte span.now }
{
    matches!(span, [only] if *only == byte)
}

// The value that has this component.
pub(crate) fn value_of(alloc: Global, span: &[u8]) -> Result<Value, Memory>
    requires { IsFsSpan span.now }
    ensures { IfOk result (λ value. value ≡ fs_value_at span.now) }
{
    if is_only(span, b'*') {
        Ok(Value::Any)
    } else if is_only(span, b'-') {
        Ok(Value::Na)
    } else {
        Ok(Value::Text(read_spelling(alloc, span)?))
    }
}

// A reader of values from components.
#[derive(Drop)]
pub(crate) struct Components {
    pub alloc: Global,
}

impl ReadValue for Components {
    ghost may_occur = { IsFsSpan };

    ghost value = { fs_value_at };

    fn read(&mut self, text: &[u8]) -> Result<Value, Memory> {
        value_of(self.alloc, text)
    }
}
