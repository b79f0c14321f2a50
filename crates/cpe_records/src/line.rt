// The JSON value of a line.
ghost use Rattle.std.specs.Prelude.{◌≡◌, IfOk, option_map};
ghost use Rattle.serde_json.specs.View.{view};
ghost use Rattle.cpe_records.specs.Line.{json_value_of};

use cpe_rows::Memory;
use serde_json::Value;
use std::alloc::Global;

/// The value of JSON (RFC 8259) that the line is, if there is one. The value nests at most 127 arrays and objects, and
/// has no number out of range.
///
/// # Errors
/// Only that memory ran out.
pub fn value_of(alloc: Global, line: &[u8]) -> Result<Option<Value>, Memory>
    ensures { IfOk result (λ found. option_map view found ≡ json_value_of line.now) }
{
    match Value::from_slice(alloc, line) {
        Ok(value) => Ok(Some(value)),
        Err(error) => {
            if error.is_memory() {
                Err(Memory)
            } else {
                Ok(None)
            }
        }
    }
}
